//! Blocks of 64 patterns with what is known there of two nets, and the words of the patterns that are cared
//! for at a table.
ghost use Rattle.std.specs.Prelude.{◌≡◌, ◌<◌, ◌≤◌, ℕ, List, Bool, length, IfOk, OnOk};
ghost use Rattle.semantics.specs.Net.{input_count, table_count, signal_count};
ghost use Rattle.lane_bits.specs.Rows.{word_count};
ghost use Rattle.care_masks.specs.Flips.{AreLater};
ghost use Rattle.care_masks.specs.Growing.{IsBlockOf, AreBlocksFor, FitBlocks, AreCareWords, FitsRoom};

use crate::differences::used_word;
use crate::flips::{TurnedTable, flip_words, list_later};
use crate::judged_nets::{Judged, over_bound};
use crate::overlaps::overlap_words;
use lane_bits::kernels::word_count;
use lane_bits::patterns::Patterns;
use lane_nets::blocks::block;
use lane_nets::outputs::output_block;
use lane_nets::word_list::WordList;
use std::alloc::{AllocError, Global};

/// The words of the second net's signals and of the exact outputs, where the second net itself exceeds the
/// bound, and for each of its tables where the rows overlap.
#[derive(Drop)]
pub(crate) struct Block {
    pub(crate) words: WordList,
    pub(crate) outputs: WordList,
    pub(crate) exceeds: u64,
    pub(crate) overlaps: WordList,
}

/// Two nets that are judged, and their blocks of `count` patterns.
#[derive(Clone, Copy)]
pub(crate) struct JudgedBlocks<'a> {
    pub(crate) judged: &'a Judged<'a>,
    pub(crate) count: u64,
    pub(crate) blocks: &'a [Block],
}

/// Room to turn a table over: a mark and a word for each signal.
#[derive(Drop)]
pub(crate) struct Room {
    pub(crate) marks: Vec<bool>,
    pub(crate) words: Vec<u64>,
}

/// Block k.
fn block_of(
    alloc: Global,
    judged: &Judged,
    patterns: &Patterns,
    k: usize,
) -> Result<Block, AllocError>
    requires inputs { patterns.now.inputs ≡ input_count judged.now.nets.exact }
    requires within { k < word_count (length patterns.now.vectors) }
    ensures { IfOk result (IsBlockOf judged.now patterns.now.vectors k) }
{
    let net = judged.nets.approx();
    net.see_sound();
    let words = block(alloc, net, patterns, k)?;
    let outputs = output_block(alloc, judged.nets.exact(), patterns, k)?;
    let used = used_word(patterns.count(), k);
    let exceeds = over_bound(
        net,
        judged.metric,
        judged.bound,
        words.as_slice(),
        outputs.as_slice(),
        used,
    );
    let overlaps = overlap_words(alloc, net, words.as_slice())?;
    Ok(Block {
        words,
        outputs,
        exceeds,
        overlaps,
    })
}

/// Adds the blocks behind those that are there.
pub(crate) fn add_blocks(
    alloc: Global,
    judged: &Judged,
    patterns: &Patterns,
    blocks: &mut Vec<Block>,
) -> Result<(), AllocError>
    requires inputs { patterns.now.inputs ≡ input_count judged.now.nets.exact }
    requires few { length blocks.old.items ≤ word_count (length patterns.now.vectors) }
    requires known { AreBlocksFor judged.now patterns.now.vectors blocks.old.items }
    ensures count { OnOk result (length blocks.new.items ≡ word_count (length patterns.now.vectors)) }
    ensures known { OnOk result (AreBlocksFor judged.now patterns.now.vectors blocks.new.items) }
{
    for k in blocks.len()..word_count(patterns.count()) as usize {
        blocks.push(block_of(alloc, judged, patterns, k)?)?;
    }
    Ok(())
}

/// Adds to `row` the words of the patterns that are cared for at a table, up to `to` blocks. The values of
/// each block with the table turned over are computed in `words`.
fn add_care_words(
    known: &JudgedBlocks,
    turned: &TurnedTable,
    to: usize,
    words: &mut [u64],
    row: &mut WordList,
) -> Result<(), AllocError>
    requires table { turned.now.table < table_count known.now.judged.now.nets.approx }
    requires later { AreLater known.now.judged.now.nets.approx turned.now.table turned.now.later.now }
    requires fit { FitBlocks known.now.judged.now known.now.count known.now.blocks.now }
    requires within { to ≤ length known.now.blocks.now }
    requires row { length row.old ≤ to }
    requires words { length words.old ≡ signal_count known.now.judged.now.nets.approx }
    ensures cared { (vectors : List (List Bool)) → length vectors ≡ known.now.count
        → AreBlocksFor known.now.judged.now vectors known.now.blocks.now
        → AreCareWords known.now.judged.now vectors turned.now.table row.old
        → AreCareWords known.now.judged.now vectors turned.now.table row.new }
    ensures few { length row.new ≤ to }
    ensures ok { OnOk result (to ≤ length row.new) }
{
    let judged = known.judged;
    let blocks = known.blocks;
    let net = judged.nets.approx();
    net.see_sound();
    for k in row.len()..to {
        words.copy_from_slice(blocks[k].words.as_slice());
        flip_words(net, turned, words);
        let outputs = blocks[k].outputs.as_slice();
        let used = used_word(known.count, k);
        let cared = over_bound(net, judged.metric, judged.bound, words, outputs, used);
        row.push(cared)?;
    }
    Ok(())
}

/// Lets `row` have the words of the patterns that are cared for at table `t` for at least `to` blocks.
pub(crate) fn reach_care_words(
    known: &JudgedBlocks,
    t: u32,
    to: usize,
    room: &mut Room,
    row: &mut WordList,
) -> Result<(), AllocError>
    requires table { t < table_count known.now.judged.now.nets.approx }
    requires fit { FitBlocks known.now.judged.now known.now.count known.now.blocks.now }
    requires within { to ≤ length known.now.blocks.now }
    requires few { length row.old ≤ length known.now.blocks.now }
    requires room { FitsRoom known.now.judged.now room.old }
    ensures cared { (vectors : List (List Bool)) → length vectors ≡ known.now.count
        → AreBlocksFor known.now.judged.now vectors known.now.blocks.now
        → AreCareWords known.now.judged.now vectors t row.old
        → AreCareWords known.now.judged.now vectors t row.new }
    ensures few { length row.new ≤ length known.now.blocks.now }
    ensures ok { OnOk result (to ≤ length row.new) }
    ensures room { FitsRoom known.now.judged.now room.new }
{
    if to <= row.len() {
        return Ok(());
    }
    let net = known.judged.nets.approx();
    let order = net.order();
    let mut tables = vec![in *room.words.allocator(); 0; order.len()]?;
    let later = tables.as_mut_slice();
    net.mark_dependents(t, &mut room.marks);
    let found = list_later(net, order, t, &room.marks, later);
    let turned = TurnedTable {
        table: t,
        later: &later[..found],
    };
    add_care_words(known, &turned, to, &mut room.words, row)
}
