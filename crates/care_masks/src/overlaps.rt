//! Where rows of a table overlap, at 64 patterns at a time. It is found once for a block, and then tells of
//! each row in one step whether another row matches too.
ghost use Rattle.std.specs.Prelude.{◌≡◌, ◌<◌, ℕ, length, All, IfOk};
ghost use Rattle.semantics.specs.Net.{table_count, signal_count};
ghost use Rattle.semantics.specs.Value.{row_matches};
ghost use Rattle.lane_nets.specs.Words.{word_bit, values_at};
ghost use Rattle.care_masks.specs.Overlaps.{two_pass, AreOverlapsOf};

use lane_nets::table_words::row_word;
use lane_nets::word_list::WordList;
use net_core::items::Signal;
use net_core::net::Net;
use net_core::row::Row;
use std::alloc::{AllocError, Global};

/// Where two of the rows or more match.
fn overlap_word(rows: &[Row], pins: &[Signal], words: &[u64]) -> u64
    requires widths { All (λ marks. length marks ≡ length pins.now) rows.now }
    requires pins_in { All (λ s. s < length words.now) pins.now }
    ensures { (b : ℕ) → b < 64
        → word_bit result b ≡ two_pass (λ marks. row_matches marks pins.now (values_at words.now b))
        rows.now }
{
    if rows.len() < 2 {
        return 0;
    }
    let mut any = 0;
    let mut two = 0;
    for row in rows {
        let matched = row_word(row.as_slice(), pins, words);
        two |= any & matched;
        any |= matched;
    }
    two
}

/// Sets `overlaps` to where the rows of each table overlap.
fn set_overlaps(net: &Net, words: &[u64], overlaps: &mut [u64])
    requires words_room { length words.now ≡ signal_count net.now }
    requires room { length overlaps.old ≡ table_count net.now }
    ensures { AreOverlapsOf net.now words.now overlaps.new }
{
    net.see_sound();
    for t in 0..net.tables() {
        let table = net.table(t);
        let rows = table.rows().as_slice();
        let pins = table.pins().as_slice();
        overlaps[t as usize] = overlap_word(rows, pins, words);
    }
}

/// For each table, where its rows overlap in a block in which the signals have these words.
pub(crate) fn overlap_words(alloc: Global, net: &Net, words: &[u64]) -> Result<WordList, AllocError>
    requires { length words.now ≡ signal_count net.now }
    ensures { IfOk result (AreOverlapsOf net.now words.now) }
{
    let mut overlaps = vec![in alloc; 0; net.tables() as usize]?;
    set_overlaps(net, words, &mut overlaps);
    Ok(WordList::of(overlaps))
}
