//! The values of all signals at 64 patterns at a time where a table is turned over.
ghost use Rattle.std.specs.Prelude.{◌≡◌, ◌==◌, ◌&&◌, ◌↔◌, ◌<◌, ◌≤◌, not, ℕ, List, Bool, false, length, take};
ghost use Rattle.std.specs.Prelude.{slice_index_or, IsTrue};
ghost use Rattle.semantics.specs.Net.{input_count, table_count, signal_count};
ghost use Rattle.semantics.specs.Dependence.{DependsOn};
ghost use Rattle.semantics.specs.Order.{IsOrderOf};
ghost use Rattle.lane_nets.specs.Words.{HasValues};
ghost use Rattle.care_masks.specs.Flips.{HasFlippedValues, AreLater};

use lane_nets::table_words::table_word;
use net_core::net::Net;

/// A table that is turned over, and the other tables that depend on it, in an order of evaluation.
#[derive(Clone, Copy)]
pub struct TurnedTable<'a> {
    pub table: u32,
    pub later: &'a [u32],
}

/// Whether the word of table `i` is computed again: not for table `t` itself, and else where table `i` is
/// marked.
fn is_found_again(i: u32, t: u32, marked: bool) -> bool
    ensures { result ≡ (not (i == t) && marked) }
{
    i != t && marked
}

/// Sets the front of `later` to the tables other than `t` that depend on it, which are marked, in an order of
/// evaluation. Returns the number of these tables.
pub fn list_later(net: &Net, order: &[u32], t: u32, marks: &[bool], later: &mut [u32]) -> usize
    requires order { IsOrderOf (input_count net.now) net.now.tables order.now }
    requires room { length later.old ≡ length order.now }
    requires marks_room { length marks.now ≡ signal_count net.now }
    requires marks { (s : ℕ) → s < signal_count net.now → IsTrue (slice_index_or marks.now s false)
        ↔ DependsOn (input_count net.now) net.now.tables t s }
    ensures few { result ≤ length order.now }
    ensures later { AreLater net.now t (take result later.new) }
{
    let inputs = net.inputs() as usize;
    let mut count = 0;
    for i in order {
        if is_found_again(*i, t, marks[inputs + *i as usize]) {
            later[count] = *i;
            count += 1;
        }
    }
    count
}

/// Turns over the words of a table, and computes again those of the tables that depend on it.
pub fn flip_words(net: &Net, turned: &TurnedTable, words: &mut [u64])
    requires table { turned.now.table < table_count net.now }
    requires later { AreLater net.now turned.now.table turned.now.later.now }
    requires room { length words.old ≡ signal_count net.now }
    ensures { (b : ℕ) (x : List Bool) → b < 64 → HasValues net.now words.old b x
        → HasFlippedValues net.now turned.now.table words.new b x }
{
    let inputs = net.inputs() as usize;
    words[inputs + turned.table as usize] = !words[inputs + turned.table as usize];
    for i in turned.later {
        let word = table_word(net.table(*i), words);
        words[inputs + *i as usize] = word;
    }
}
