//! The tables of each level, in their order, as chains: each level has its first table, and each table has
//! the next table of its level.
ghost use Rattle.std.specs.Prelude.{◌≡◌, ◌<◌, ℕ, length, slice_index_or, IfOk};
ghost use Rattle.semantics.specs.Net.{input_count, table_count, signal_count};
ghost use Rattle.merge_log.specs.LevelLists.{AreLevelLists, level_lists_value};

use crate::levels::depth;
use net_core::net::Net;
use std::alloc::{AllocError, Global};

/// The level of each signal, the first table of each level, and for each table the next table of its level;
/// the number of tables stands for none.
#[derive(Drop)]
pub(crate) struct LevelLists {
    pub(crate) levels: Vec<u32>,
    pub(crate) firsts: Vec<u32>,
    pub(crate) nexts: Vec<u32>,
}

/// A list of `count` numbers, each of which stands for no table.
fn no_tables(alloc: Global, none: u32, count: usize) -> Result<Vec<u32>, AllocError>
    ensures count { IfOk result (λ made. length made.items ≡ count) }
    ensures none { IfOk result (λ made. (i : ℕ) → i < count → slice_index_or made.items i 0 ≡ none) }
{
    Ok(vec![in alloc; none; count]?)
}

/// The chains of the tables of a net whose signals have these levels. The tables are taken from the last to
/// the first, so each chain rises.
pub(crate) fn level_lists(
    alloc: Global,
    net: &Net,
    levels: Vec<u32>,
) -> Result<LevelLists, AllocError>
    requires { length levels.items ≡ signal_count net.now }
    ensures levels { IfOk result (λ lists. lists.levels.items ≡ levels.items) }
    ensures deepest { IfOk result
        (λ lists. (s : ℕ) → slice_index_or lists.levels.items s 0 < length lists.firsts.items) }
    ensures lists { IfOk result
        (λ lists. AreLevelLists (input_count net.now) (table_count net.now) (level_lists_value lists) 0) }
{
    let (inputs, tables) = (net.inputs() as usize, net.tables());
    let mut firsts = no_tables(alloc, tables, depth(&levels) as usize + 1)?;
    let mut nexts = no_tables(alloc, tables, tables as usize)?;
    let mut t = tables;
    'down: while t > 0 {
        t -= 1;
        let level = levels[inputs + t as usize] as usize;
        nexts[t as usize] = firsts[level];
        firsts[level] = t;
    }
    Ok(LevelLists {
        levels,
        firsts,
        nexts,
    })
}
