//! The masks of an approximate net over a list of patterns that grows.
ghost use Rattle.std.specs.Prelude.{◌≡◌, ◌<◌, ◌≤◌, List, Bool, [], map, take, length, replicate, IfOk, OnOk};
ghost use Rattle.std.specs.Prelude.{OnErr, Contains};
ghost use Rattle.semantics.specs.Net.{input_count};
ghost use Rattle.chain_semantics.specs.Moves.{moves_of, table_of};
ghost use Rattle.care_masks.specs.Masks.{IsBrokenWord, FindsFirstBroken};
ghost use Rattle.care_masks.specs.Growing.{IsFrontOf, AreBlocksFor, FitBlocks, AreCareWords, FitsRoom};
ghost use Rattle.care_masks.specs.Growing.{judged_over};

use crate::differences::broken_word;
use crate::dropped::block_difference;
use crate::growing_blocks::{Block, JudgedBlocks, Room, add_blocks, reach_care_words};
use crate::judged_nets::Judged;
use chain_semantics::moves::Move;
use lane_bits::kernels::first_set;
use lane_bits::patterns::Patterns;
use lane_nets::word_list::WordList;
use net_core::net::Net;
use net_errors::compared::Compared;
use net_moves::apply::table_of;
use semantics::metric::Metric;
use std::alloc::{AllocError, Global};
use std::marker::Model;

/// Two nets, the blocks of the patterns, and for each table the first words of the row of the patterns that
/// are cared for, as far as moves have asked for them.
#[derive(Drop)]
pub struct GrowingMasks<'a> {
    judged: Judged<'a>,
    count: u64,
    blocks: Vec<Block>,
    care: Vec<WordList>,
    room: Room,
}

impl<'a> Model for GrowingMasks<'a> {
    ghost use Rattle.semantics.specs.Net.{input_count};
    ghost use Rattle.care_masks.specs.Growing.{GrowingValue, vectors_in_blocks, AreGrowing};

    ghost Value = { GrowingValue };

    ghost view = { λ a. record {
      exact = a.judged.nets.exact;
      net = a.judged.nets.approx;
      metric = a.judged.metric;
      bound = a.judged.bound;
      vectors = vectors_in_blocks (input_count a.judged.nets.approx) a.count a.blocks.items;
    } };

    ghost invariant = { λ a. AreGrowing a.judged a.count a.blocks.items a.care.items a.room };
}

/// The lanes where the move breaks the bound, in block k. The words of the patterns that are cared for at its
/// table are computed when they are asked for.
fn reach_broken_word(
    known: &JudgedBlocks,
    a_move: Move,
    k: usize,
    room: &mut Room,
    row: &mut WordList,
) -> Result<u64, AllocError>
    requires offered { Contains (moves_of known.now.judged.now.nets.approx) a_move }
    requires fit { FitBlocks known.now.judged.now known.now.count known.now.blocks.now }
    requires within { k < length known.now.blocks.now }
    requires few { length row.old ≤ length known.now.blocks.now }
    requires room { FitsRoom known.now.judged.now room.old }
    ensures broken { IfOk result (λ word. (vectors : List (List Bool)) → length vectors ≡ known.now.count
        → AreBlocksFor known.now.judged.now vectors known.now.blocks.now
        → AreCareWords known.now.judged.now vectors (table_of a_move) row.old
        → IsBrokenWord (judged_over known.now.judged.now vectors) a_move k word) }
    ensures cared { (vectors : List (List Bool)) → length vectors ≡ known.now.count
        → AreBlocksFor known.now.judged.now vectors known.now.blocks.now
        → AreCareWords known.now.judged.now vectors (table_of a_move) row.old
        → AreCareWords known.now.judged.now vectors (table_of a_move) row.new }
    ensures few { length row.new ≤ length known.now.blocks.now }
    ensures room { FitsRoom known.now.judged.now room.new }
{
    let blocks = known.blocks;
    let block = &blocks[k];
    let words = block.words.as_slice();
    let overlaps = block.overlaps.as_slice();
    let differs = block_difference(known.judged.nets.approx(), a_move, words, overlaps);
    let exceeds = block.exceeds;
    if differs == 0 {
        return Ok(exceeds);
    }
    reach_care_words(known, table_of(a_move), k + 1, room, row)?;
    Ok(broken_word(differs, row.as_slice()[k], exceeds))
}

/// The first pattern at which the moved net exceeds the bound.
fn first_broken(
    known: &JudgedBlocks,
    a_move: Move,
    room: &mut Room,
    row: &mut WordList,
) -> Result<Option<u64>, AllocError>
    requires offered { Contains (moves_of known.now.judged.now.nets.approx) a_move }
    requires fit { FitBlocks known.now.judged.now known.now.count known.now.blocks.now }
    requires few { length row.old ≤ length known.now.blocks.now }
    requires room { FitsRoom known.now.judged.now room.old }
    ensures broken { IfOk result (λ found. (vectors : List (List Bool)) → length vectors ≡ known.now.count
        → AreBlocksFor known.now.judged.now vectors known.now.blocks.now
        → AreCareWords known.now.judged.now vectors (table_of a_move) row.old
        → FindsFirstBroken (judged_over known.now.judged.now vectors) a_move found) }
    ensures cared { (vectors : List (List Bool)) → length vectors ≡ known.now.count
        → AreBlocksFor known.now.judged.now vectors known.now.blocks.now
        → AreCareWords known.now.judged.now vectors (table_of a_move) row.old
        → AreCareWords known.now.judged.now vectors (table_of a_move) row.new }
    ensures few { length row.new ≤ length known.now.blocks.now }
    ensures room { FitsRoom known.now.judged.now room.new }
{
    for k in 0..known.blocks.len() {
        let broken = reach_broken_word(known, a_move, k, room, row)?;
        if let Some(b) = first_set(&[broken], 64) {
            return Ok(Some(64 * k as u64 + b));
        }
    }
    Ok(None)
}

/// Keeps only the words of the first blocks.
fn cut_rows(rows: &mut [WordList], blocks: usize)
    ensures { rows.new ≡ map (take blocks) rows.old }
{
    for row in rows.iter_mut() {
        row.truncate(blocks);
    }
}

/// A row without words for each table.
fn empty_rows(alloc: Global, tables: u32) -> Result<Vec<WordList>, AllocError>
    ensures { IfOk result (λ rows. rows.items ≡ replicate tables []) }
{
    let mut rows = Vec::new(alloc);
    for _t in 0..tables {
        rows.push(WordList::new(alloc))?;
    }
    Ok(rows)
}

/// Room to turn over the tables of the second net.
fn room_for(alloc: Global, judged: &Judged) -> Result<Room, AllocError>
    ensures { IfOk result (FitsRoom judged.now) }
{
    let net = judged.nets.approx();
    let signals = net.signals() as usize;
    Ok(Room {
        marks: vec![in alloc; false; signals]?,
        words: vec![in alloc; 0; signals]?,
    })
}

impl<'a> GrowingMasks<'a> {
    /// The masks of the approximate net over no pattern.
    pub fn new(
        alloc: Global,
        nets: &Compared<'a>,
        metric: Metric,
        bound: u128,
    ) -> Result<GrowingMasks<'a>, AllocError>
        ensures { IfOk result (λ m. m
            ≡ record {
              exact = nets.now.exact;
              net = nets.now.approx;
              metric = metric;
              bound = bound;
              vectors = [];
            }) }
    {
        let judged = Judged {
            nets: Compared::new(nets.exact(), nets.approx()),
            metric,
            bound,
        };
        let room = room_for(alloc, &judged)?;
        Ok(GrowingMasks {
            judged,
            count: 0,
            blocks: Vec::new(alloc),
            care: empty_rows(alloc, nets.approx().tables())?,
            room,
        })
    }

    /// Goes over to a longer list of patterns. Only a last block that the old list fills in part, and the
    /// blocks behind it, are made anew.
    pub fn grow(&mut self, patterns: &Patterns) -> Result<(), AllocError>
        requires inputs { patterns.now.inputs ≡ input_count self.old.exact }
        requires front { IsFrontOf self.old.vectors patterns.now.vectors }
        ensures ok { OnOk result (self.new ≡ record self.old { vectors = patterns.now.vectors }) }
        ensures err { OnErr result (self.new ≡ record self.old { vectors = [] }) }
    {
        self.judged.nets.approx().see_sound();
        let full = (self.count / 64) as usize;
        let alloc = *self.blocks.allocator();
        self.blocks.truncate(full);
        cut_rows(&mut self.care, full);
        match add_blocks(alloc, &self.judged, patterns, &mut self.blocks) {
            Ok(()) => {
                self.count = patterns.count();
                Ok(())
            }
            Err(error) => {
                self.blocks.clear();
                cut_rows(&mut self.care, 0);
                self.count = 0;
                Err(error)
            }
        }
    }

    /// The first pattern at which the moved net exceeds the bound. The first move that asks for more words of
    /// its table takes memory for them.
    pub fn breaks(&mut self, a_move: Move) -> Result<Option<u64>, AllocError>
        requires { Contains (moves_of self.old.net) a_move }
        ensures broken { IfOk result (FindsFirstBroken self.old a_move) }
        ensures same { self.new ≡ self.old }
    {
        self.judged.nets.approx().see_sound();
        let known = JudgedBlocks {
            judged: &self.judged,
            count: self.count,
            blocks: self.blocks.as_slice(),
        };
        first_broken(
            &known,
            a_move,
            &mut self.room,
            &mut self.care[table_of(a_move) as usize],
        )
    }
}
