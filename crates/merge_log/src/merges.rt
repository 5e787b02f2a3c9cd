//! The merges of a net: each table that is alike to an earlier table is made equal to the first table that it
//! is alike to.
//!
//! The tables are taken by rising level, and in their order at each level. So the pins of a table are made
//! equal to others before the table is taken, and of alike tables, which all have one level, the first is
//! taken first. A table is alike to a table that was taken exactly where both have the same form, which a set
//! of forms tells.
ghost use Rattle.std.specs.Prelude.{◌≡◌, ◌+◌, ◌<◌, ℕ, List, length, slice_index_or, IfOk, OnOk};
ghost use Rattle.semantics.specs.Net.{input_count, table_count};
ghost use Rattle.proof_semantics.specs.Formula.{goal_of};
ghost use Rattle.proof_semantics.specs.Merges.{IsMergeLog};
ghost use Rattle.merge_log.specs.Levels.{AreLevels};
ghost use Rattle.merge_log.specs.LevelLists.{AreListsOf};
ghost use Rattle.merge_log.specs.Merging.{IsMerging, IsFound, level_at};

use crate::form::{FormSet, form_of};
use crate::level_lists::{LevelLists, level_lists};
use crate::levels::levels;
use crate::merged::Merged;
use crate::places::PlacedNet;
use crate::table_steps::merge_tables;
use net_core::items::Items;
use net_core::net::Net;
use proof_parts::cnf::Cnf;
use proof_parts::log::Log;
use std::alloc::{AllocError, Global};
use std::marker::Model;

/// The log so far, what it made equal, the forms of the tables that are the first of their kind, and these
/// tables.
#[derive(Drop)]
struct Merging {
    log: Log,
    merged: Merged,
    forms: FormSet,
    tables: Vec<u32>,
}

impl Model for Merging {
    ghost use Rattle.merge_log.specs.Merging.{MergingValue};

    ghost Value = { MergingValue };

    ghost view = { λ a. record { log = a.log; merged = a.merged; forms = a.forms; tables = a.tables.items } };
}

/// Makes table t equal to the table at place `kind` of those that are the first of their kind.
fn merge_found(
    alloc: Global,
    placed: &PlacedNet,
    merging: &mut Merging,
    t: u32,
    kind: usize,
) -> Result<(), AllocError>
    requires { (levels : List ℕ) × IsFound placed.now levels t merging.old kind }
    ensures { OnOk result ((levels : List ℕ) → IsFound placed.now levels t merging.old kind
        → IsMerging placed.now levels (level_at placed.now levels t) (t + 1) merging.new) }
{
    let own = placed.table(t);
    let first = placed.table(merging.tables[kind]);
    let id = merge_tables(
        alloc,
        placed.goal(),
        &mut merging.log,
        &merging.merged,
        &own,
        &first,
    )?;
    merging.merged.merge(own.signal, first.signal, id);
    Ok(())
}

/// Takes table t: it is made equal to the first table of its kind, or is itself the first.
fn take_table(
    alloc: Global,
    placed: &PlacedNet,
    merging: &mut Merging,
    t: u32,
) -> Result<(), AllocError>
    requires table { t < table_count placed.now }
    requires merging { (levels : List ℕ) × (level : ℕ)
        × AreLevels (input_count placed.now) placed.now.tables levels
        × (slice_index_or levels (input_count placed.now + t) 0 ≡ level)
        × IsMerging placed.now levels level t merging.old }
    ensures { OnOk result ((levels : List ℕ) (level : ℕ)
        → AreLevels (input_count placed.now) placed.now.tables levels
        → slice_index_or levels (input_count placed.now + t) 0 ≡ level
        → IsMerging placed.now levels level t merging.old
        → IsMerging placed.now levels level (t + 1) merging.new) }
{
    let own = placed.table(t);
    let form = form_of(alloc, &merging.merged, own.table)?;
    let kind = merging.forms.number(form)?;
    if kind < merging.tables.len() {
        merge_found(alloc, placed, merging, t, kind)
    } else {
        merging.tables.push(t)?;
        Ok(())
    }
}

/// Takes the tables of a level.
fn take_level(
    alloc: Global,
    placed: &PlacedNet,
    lists: &LevelLists,
    level: usize,
    merging: &mut Merging,
) -> Result<(), AllocError>
    requires lists { AreListsOf placed.now lists.now }
    requires level { level < length lists.now.firsts.items }
    requires merging { IsMerging placed.now lists.now.levels.items level 0 merging.old }
    ensures { OnOk result (IsMerging placed.now lists.now.levels.items (level + 1) 0 merging.new) }
{
    let mut t = lists.firsts[level];
    'along: while t < placed.net().tables() {
        take_table(alloc, placed, merging, t)?;
        t = lists.nexts[t as usize];
    }
    Ok(())
}

/// The state before any table is taken.
fn start(alloc: Global, placed: &PlacedNet) -> Result<Merging, AllocError>
    ensures { IfOk result (λ merging. (levels : List ℕ)
        → AreLevels (input_count placed.now) placed.now.tables levels
        → IsMerging placed.now levels 1 0 merging) }
{
    let merged = Merged::new(alloc, placed.net().signals())?;
    Ok(Merging {
        log: Items::new(alloc),
        merged,
        forms: FormSet::new(alloc),
        tables: Vec::new(alloc),
    })
}

/// The tables of each level of a net.
fn lists_of(alloc: Global, net: &Net) -> Result<LevelLists, AllocError>
    ensures { IfOk result (AreListsOf net.now) }
{
    let levels = levels(alloc, net)?;
    let lists = level_lists(alloc, net, levels)?;
    Ok(lists)
}

/// The log of the merges, level by level.
fn merge_levels(alloc: Global, placed: &PlacedNet, lists: &LevelLists) -> Result<Log, AllocError>
    requires { AreListsOf placed.now lists.now }
    ensures { IfOk result (IsMergeLog placed.now) }
{
    let mut merging = start(alloc, placed)?;
    for level in 1..lists.firsts.len() {
        take_level(alloc, placed, lists, level, &mut merging)?;
    }
    Ok(merging.log)
}

/// The log that makes each table that is alike to an earlier table equal to the first table that it is alike
/// to: two steps for each of its rows, and then two.
pub fn merges(alloc: Global, joint: &Net, goal: &Cnf) -> Result<Log, AllocError>
    requires its_goal { goal.now ≡ goal_of joint.now }
    ensures { IfOk result (IsMergeLog joint.now) }
{
    let placed = PlacedNet::new(alloc, joint, goal)?;
    let lists = lists_of(alloc, joint)?;
    merge_levels(alloc, &placed, &lists)
}
