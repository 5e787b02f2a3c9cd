//! The masks of an approximate net over a set of patterns, and what they say of moves.
ghost use Rattle.std.specs.Prelude.{◌≡◌, ◌<◌, ◌≤◌, ℕ, length, IfOk, Contains};
ghost use Rattle.std.specs.Borrow.{sem};
ghost use Rattle.semantics.specs.Net.{NetValue, input_count, table_count, HasSamePorts};
ghost use Rattle.chain_semantics.specs.Moves.{moves_of};
ghost use Rattle.chain_semantics.specs.Care.{Changes};
ghost use Rattle.lane_nets.specs.Blocks.{row_at, IsRowWhere};
ghost use Rattle.care_masks.specs.Masks.{AreMasksOf, FindsFirstBroken};
ghost use Rattle.care_masks.specs.Filled.{vectors_in, AreFilled};
ghost use Rattle.care_masks.specs.Lending.{StayTheSame};

use crate::care::{Limit, care_rows, exceeding_row};
use crate::differences::{first_broken, set_differences};
use chain_semantics::moves::Move;
use lane_bits::kernels::word_count;
use lane_bits::patterns::Patterns;
use lane_nets::blocks::blocks;
use lane_nets::outputs::output_rows;
use lane_nets::word_list::WordList;
use net_core::items::Items;
use net_core::net::Net;
use net_moves::apply::table_of;
use semantics::limits::MOST_OUTPUTS;
use semantics::metric::Metric;
use std::alloc::{AllocError, Global};
use std::marker::Model;

/// The net's values at the patterns in blocks of 64; for each table the row of the patterns that are cared
/// for; the row of the patterns at which the net itself exceeds the bound; and room for one more row.
#[derive(Drop)]
pub struct FixedMasks {
    net: Net,
    count: u64,
    blocks: Items<WordList>,
    care: Items<WordList>,
    exceeds: WordList,
    differs: Vec<u64>,
}

impl Model for FixedMasks {
    ghost use Rattle.semantics.specs.Net.{input_count};
    ghost use Rattle.care_masks.specs.Masks.{Masks};
    ghost use Rattle.care_masks.specs.Filled.{vectors_in, AreFilled};

    ghost Value = { Masks };

    ghost view = { λ a. record {
      net = a.net;
      vectors = vectors_in (input_count a.net) a.count a.blocks;
      care = a.care;
      exceeds = a.exceeds;
    } };

    ghost invariant = { λ a. AreFilled a.net a.count a.blocks
        (record { care = a.care; exceeds = a.exceeds; room = a.differs.items }) };
}

impl FixedMasks {
    /// The masks of these parts.
    fn of_parts(
        net: Net,
        count: u64,
        blocks: Items<WordList>,
        care: Items<WordList>,
        exceeds: WordList,
        differs: Vec<u64>,
    ) -> FixedMasks
        requires { AreFilled net count blocks
            (record { care = care; exceeds = exceeds; room = differs.items }) }
        ensures { result ≡ record {
          net = net;
          vectors = vectors_in (input_count net) count blocks;
          care = care;
          exceeds = exceeds;
        } }
    {
        FixedMasks {
            net,
            count,
            blocks,
            care,
            exceeds,
            differs,
        }
    }

    /// The masks of `approx` against `exact` at these patterns.
    pub fn new(
        alloc: Global,
        metric: Metric,
        bound: u128,
        exact: &Net,
        approx: &Net,
        patterns: &Patterns,
    ) -> Result<FixedMasks, AllocError>
        requires ports { HasSamePorts exact.now approx.now }
        requires few_outputs { length exact.now.outputs ≤ MOST_OUTPUTS }
        requires inputs { patterns.now.inputs ≡ input_count exact.now }
        ensures net { IfOk result (λ masks. masks.net ≡ approx.now) }
        ensures vectors { IfOk result (λ masks. masks.vectors ≡ patterns.now.vectors) }
        ensures masks { IfOk result (AreMasksOf metric exact.now bound) }
    {
        let limit = Limit {
            outputs: output_rows(alloc, exact, patterns)?,
            count: patterns.count(),
            metric,
            level: bound,
        };
        let blocks = blocks(alloc, approx, patterns)?;
        let exceeds = exceeding_row(alloc, approx, blocks.as_slice(), &limit)?;
        let care = care_rows(alloc, approx, blocks.as_slice(), &limit)?;
        let differs = vec![in alloc; 0; word_count(patterns.count()) as usize]?;
        let net = approx.copy()?;
        Ok(FixedMasks::of_parts(net, patterns.count(), blocks, care, exceeds, differs))
    }

    /// The row of the patterns that are cared for at table `t`; the others are its don't-cares.
    pub fn care(&self, t: u32) -> &[u64]
        requires { t < table_count self.now.net }
        ensures { result.now ≡ row_at self.now.care t }
    {
        self.care.get(t as usize).as_slice()
    }

    /// The row of the patterns at which the move changes the value of its table.
    pub fn differs(&mut self, a_move: Move) -> &[u64]
        requires { Contains (moves_of self.old.net) a_move }
        ensures* masks { sem 𝓛 (StayTheSame self.entry) }
        ensures row { IsRowWhere self.old.vectors (Changes self.old.net a_move) result.now }
    {
        set_differences(
            &self.net,
            a_move,
            self.count,
            self.blocks.as_slice(),
            &mut self.differs,
        );
        &self.differs
    }

    /// The first pattern at which the moved net exceeds the bound.
    pub fn breaks(&self, a_move: Move) -> Option<u64>
        requires { Contains (moves_of self.now.net) a_move }
        ensures { (metric : Metric) (exact : NetValue) (bound : ℕ) → AreMasksOf metric exact bound self.now
            → FindsFirstBroken (record {
              exact = exact;
              net = self.now.net;
              metric = metric;
              bound = bound;
              vectors = self.now.vectors;
            }) a_move result }
    {
        let care = self.care.get(table_of(a_move) as usize).as_slice();
        first_broken(
            &self.net,
            a_move,
            self.blocks.as_slice(),
            care,
            self.exceeds.as_slice(),
        )
    }
}
