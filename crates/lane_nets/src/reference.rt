//! The right outputs at a set of patterns, made once and held for many approximate nets.
ghost use Rattle.std.specs.Prelude.{◌≡◌, ◌<◌, length, IfOk};
ghost use Rattle.semantics.specs.Net.{input_count};
ghost use Rattle.semantics.specs.Error.{net_error, IsCandidate};
ghost use Rattle.lane_nets.specs.Errors.{FindsFirstOver, IsFirstGreatest};

use crate::changes::changes;
use crate::trials::{Greatest, first_over, greatest_error};
use crate::wide_outputs::{WideOutputs, wide_rows};
use crate::wide_relative::relative_room;
use crate::word_list::WideList;
use lane_bits::patterns::Patterns;
use net_core::items::Items;
use net_core::net::Net;
use net_errors::compared::Compared;
use semantics::metric::Metric;
use std::alloc::{AllocError, Global};
use std::marker::Model;

/// An exact net, a set of patterns, and the net's outputs at these patterns, in blocks of 512.
#[derive(Drop)]
pub struct Reference<'a> {
    exact: &'a Net,
    patterns: Patterns,
    outputs: Items<WideList>,
    /// Marks of the inputs that may differ from wide block to wide block.
    changes: Vec<u64>,
}

impl<'a> Model for Reference<'a> {
    ghost use Rattle.std.specs.Prelude.{◌≡◌};
    ghost use Rattle.semantics.specs.Net.{input_count};
    ghost use Rattle.lane_nets.specs.Lanes.{ReferenceValue};
    ghost use Rattle.lane_nets.specs.Wide.{AreWideOutputsOf};
    ghost use Rattle.lane_nets.specs.Changes.{AreChanges};

    ghost Value = { ReferenceValue };

    ghost view = { λ r. record { exact = r.exact.now; patterns = r.patterns } };

    ghost invariant = { λ r. (r.patterns.inputs ≡ input_count r.exact.now)
        × AreWideOutputsOf r.exact.now r.patterns.vectors r.outputs
        × AreChanges r.patterns r.changes.items };
}

impl<'a> Reference<'a> {
    /// The net's outputs at these patterns.
    pub fn new(
        alloc: Global,
        exact: &'a Net,
        patterns: Patterns,
    ) -> Result<Reference<'a>, AllocError>
        requires { patterns.inputs ≡ input_count exact.now }
        ensures { IfOk result (λ r. r ≡ record { exact = exact.now; patterns = patterns }) }
    {
        let changes = changes(alloc, &patterns)?;
        let outputs = wide_rows(alloc, exact, &patterns, &changes)?;
        Ok(Reference {
            exact,
            patterns,
            outputs,
            changes,
        })
    }

    /// The patterns.
    pub fn patterns(&self) -> &Patterns
        ensures { result.now ≡ self.now.patterns }
    {
        &self.patterns
    }

    /// The first pattern at which the error of a net exceeds the level. The search takes memory for eight
    /// blocks of the net's values, and at many patterns for a graph of the net.
    pub fn first_over(
        &self,
        alloc: Global,
        approx: &Net,
        metric: Metric,
        level: u128,
    ) -> Result<Option<u64>, AllocError>
        requires { IsCandidate self.now.exact approx.now }
        ensures { IfOk result (FindsFirstOver (net_error metric self.now.exact approx.now) level
            self.now.patterns.vectors) }
    {
        let mut wide = WideOutputs::new(alloc, approx, &self.patterns, &self.changes)?;
        let mut room = relative_room(alloc, metric, self.exact.outputs())?;
        Ok(first_over(
            &Compared::new(self.exact, approx),
            metric,
            level,
            &self.patterns,
            self.outputs.as_slice(),
            &mut wide,
            &mut room,
        ))
    }

    /// The greatest error of a net at the patterns, and the first pattern that has it. The search takes
    /// memory for eight blocks of the net's values, and at many patterns for a graph of the net.
    pub fn greatest_error(
        &self,
        alloc: Global,
        approx: &Net,
        metric: Metric,
    ) -> Result<Greatest, AllocError>
        requires candidate { IsCandidate self.now.exact approx.now }
        requires some { 0 < length self.now.patterns.vectors }
        ensures { IfOk result
            (λ g. IsFirstGreatest (net_error metric self.now.exact approx.now) self.now.patterns.vectors
            g.error g.at) }
    {
        let mut wide = WideOutputs::new(alloc, approx, &self.patterns, &self.changes)?;
        let mut room = relative_room(alloc, metric, self.exact.outputs())?;
        Ok(greatest_error(
            &Compared::new(self.exact, approx),
            metric,
            &self.patterns,
            self.outputs.as_slice(),
            &mut wide,
            &mut room,
        ))
    }
}
