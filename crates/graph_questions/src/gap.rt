//! How far apart the lowest outputs of the exact net and of the last member of a chain are: a sum of literals
//! of a graph, which is kept from member to member.
//!
//! Each move adds the difference that it makes, mostly a few literals near the moved table. So the question
//! whether an error exceeds a level is about these few literals, and not about two nets.
ghost use Rattle.std.specs.Prelude.{◌≡◌, ◌≤◌, IfOk, length};
ghost use Rattle.semantics.specs.Net.{input_count};
ghost use Rattle.graph_questions.specs.Gaps.{AreLowestOf, IsGapOf, IsStep};

use crate::gap_steps::{low_literals, step_of};
use aig_core::graph::Aig;
use aig_core::literal::Literal;
use aig_core::nets::input_literals;
use literal_sums::finding::Adders;
use literal_sums::samples::Samples;
use literal_sums::sum::Sum;
use net_core::net::Net;
use progress::progress::Progress;
use std::alloc::{AllocError, Global};
use std::marker::Model;

/// What is kept along a chain. It is of no use once memory has failed.
#[derive(Drop)]
pub struct Gap {
    pub(crate) graph: Aig,
    pub(crate) inputs: Vec<Literal>,
    pub(crate) places: u32,
    pub(crate) exact_low: Vec<Literal>,
    pub(crate) member_low: Vec<Literal>,
    pub(crate) sum: Sum,
    pub(crate) adders: Adders,
    pub(crate) samples: Samples,
    /// A move was made whose difference is not what was guessed: questions by the gap are too hard from
    /// then on.
    pub(crate) is_lost: bool,
}

impl Model for Gap {
    ghost use Rattle.graph_questions.specs.Gaps.{GapValue};

    ghost Value = { GapValue };

    ghost view = { λ gap. record {
      graph = gap.graph;
      inputs = gap.inputs.items;
      places = gap.places;
      exact_low = gap.exact_low.items;
      member_low = gap.member_low.items;
      sum = gap.sum;
    } };
}

impl Gap {
    /// Begins with the exact net, which is the first member.
    pub fn begin(alloc: Global, exact: &Net, places: u32) -> Result<Gap, AllocError>
        requires few { places ≤ 31 }
        requires in_outputs { places ≤ length exact.now.outputs }
        ensures gap { IfOk result (IsGapOf exact.now) }
        ensures places { IfOk result (λ gap. gap.places ≡ places) }
    {
        let mut graph = Aig::new(alloc, exact.inputs());
        let inputs = input_literals(alloc, &graph)?;
        let exact_low = low_literals(alloc, &mut graph, exact, places, &inputs)?;
        let member_low = exact_low.to_vec(alloc)?;
        Ok(Gap {
            graph,
            inputs,
            places,
            exact_low,
            member_low,
            sum: Sum::new(alloc),
            adders: Adders::new(alloc),
            samples: Samples::new(alloc),
            is_lost: false,
        })
    }

    /// How many places are looked at.
    pub fn places(&self) -> u32
        ensures { result ≡ self.now.places }
    {
        self.places
    }
}
