//! What the vectors of a bundle are to show.
ghost use Rattle.std.specs.Prelude.{◌≡◌, ◌≤◌, length, IfOk, MatchOption, Some, None};
ghost use Rattle.semantics.specs.Net.{IsSmall, input_count};
ghost use Rattle.bundle.specs.Shown.{AskedValue, IsAsked, asked_moves};

use care_masks::growing::GrowingMasks;
use job_semantics::version::Version;
use lane_bits::patterns::Patterns;
use net_core::net::Net;
use net_errors::compared::Compared;
use net_moves::list::Moves;
use net_moves::moves::{moves, old_moves};
use semantics::limits::MOST_INPUTS;
use semantics::metric::Metric;
use std::alloc::{AllocError, Global};
use std::marker::Model;

/// Two nets that are compared, the vector that comes first, and the version that says which moves of the
/// second net the vectors are to break; without a version they need break no move.
#[derive(Drop)]
pub(crate) struct Asked<'a> {
    exact: &'a Net,
    approx: &'a Net,
    metric: Metric,
    bound: u128,
    witness: &'a [bool],
    version: Option<Version>,
}

impl<'a> Model for Asked<'a> {
    ghost use Rattle.bundle.specs.Shown.{AskedValue, IsAsked};

    ghost Value = { AskedValue };

    ghost view = { λ a. record {
      exact = a.exact.now;
      approx = a.approx.now;
      metric = a.metric;
      bound = a.bound;
      witness = a.witness.now;
      version = a.version;
    } };

    ghost invariant = { λ a. IsAsked (record {
      exact = a.exact.now;
      approx = a.approx.now;
      metric = a.metric;
      bound = a.bound;
      witness = a.witness.now;
      version = a.version;
    }) };
}

impl<'a> Asked<'a> {
    pub(crate) fn new(
        nets: &Compared<'a>,
        metric: Metric,
        bound: u128,
        witness: &'a [bool],
        version: Option<Version>,
    ) -> Asked<'a>
        requires small { IsSmall nets.now.approx }
        requires few { length witness.now ≤ MOST_INPUTS }
        requires width { length witness.now ≡ input_count nets.now.exact }
        ensures { result ≡ record {
          exact = nets.now.exact;
          approx = nets.now.approx;
          metric = metric;
          bound = bound;
          witness = witness.now;
          version = version;
        } }
    {
        Asked {
            exact: nets.exact(),
            approx: nets.approx(),
            metric,
            bound,
            witness,
            version,
        }
    }

    /// The vector that comes first.
    pub(crate) fn witness(&self) -> &'a [bool]
        ensures value { result.now ≡ self.now.witness }
        ensures asked { IsAsked self.now }
    {
        self.witness
    }

    /// The number of bits of a vector.
    pub(crate) fn inputs(&self) -> u32
        ensures value { result ≡ input_count self.now.exact }
        ensures asked { IsAsked self.now }
    {
        self.witness.len() as u32
    }

    /// The moves that are to be broken; none where nothing is claimed of the moves.
    pub(crate) fn moves(&self, alloc: Global) -> Result<Option<Moves<'a>>, AllocError>
        ensures { IfOk result (λ given. MatchOption given (self.now.version ≡ None)
            (λ moves. moves ≡ asked_moves self.now)) }
    {
        match self.version {
            None => Ok(None),
            Some(Version::One) => Ok(Some(old_moves(alloc, self.approx)?)),
            Some(Version::Two) => Ok(Some(moves(alloc, self.approx)?)),
        }
    }

    /// The masks of the second net against the first at these patterns.
    pub(crate) fn masks(
        &self,
        alloc: Global,
        patterns: &Patterns,
    ) -> Result<GrowingMasks<'a>, AllocError>
        requires { patterns.now.inputs ≡ input_count self.now.exact }
        ensures { IfOk result (λ masks. masks ≡ record {
          exact = self.now.exact;
          net = self.now.approx;
          metric = self.now.metric;
          bound = self.now.bound;
          vectors = patterns.now.vectors;
        }) }
    {
        let nets = Compared::new(self.exact, self.approx);
        let mut masks = GrowingMasks::new(alloc, &nets, self.metric, self.bound)?;
        masks.grow(patterns)?;
        Ok(masks)
    }
}
