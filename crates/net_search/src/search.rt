//! The three searches that make a simplification: whether the net to begin with keeps the bound, the search
//! along the chain, and the search for the greatest error.
ghost use Rattle.std.specs.Prelude.{◌≡◌, ◌≤◌, option_map, IfOk};
ghost use Rattle.semantics.specs.Net.{NetValue, input_count, IsSmall};
ghost use Rattle.semantics.specs.Error.{IsWithin};
ghost use Rattle.job_semantics.specs.Shrinking.{IsShrinking};
ghost use Rattle.level_answers.specs.Exceeds.{spent_value};
ghost use Rattle.level_answers.specs.Maximum.{IsMaximumAnswer};
ghost use Rattle.net_search.specs.Bounds.{IsBoundAnswer};

use lane_bits::patterns::Patterns;
use level_answers::margin::Margin;
use level_answers::query::{Maximum, Spent};
use net_core::net::Net;
use net_errors::compared::Compared;
use progress::progress::Progress;
use proof_semantics::constraint::Constraint;
use std::alloc::{AllocError, Global};

/// The last member of the chain that was reached, the vectors that break moves, and the spent query, where
/// one was spent.
#[derive(Drop)]
pub struct Shrunk {
    pub net: Net,
    pub pool: Patterns,
    pub spent: Option<Spent>,
}

/// The three searches. What is asked of each is a constraint: how errors are measured, the greatest error
/// that is allowed, and the most conflicts of each query.
pub trait Search {
    /// The exact nets for which the search is made.
    ghost takes: { NetValue → Type 0 };

    /// Whether the error of an approximate net stays within the bound: an input at which it does not, with
    /// few inputs the first in counting order, or that there is none.
    fn within<P: Progress>(
        alloc: Global,
        nets: &Compared,
        aim: Constraint,
        progress: &mut P,
    ) -> Result<Margin, AllocError>
        requires small { IsSmall nets.now.exact }
        requires takes { takes nets.now.exact }
        requires limit { 1 ≤ aim.limit }
        ensures { IfOk result (IsBoundAnswer aim nets.now.exact nets.now.approx) };

    /// Follows the chain of simplifications that begins with the approximate net, within the bound on the
    /// error against the exact one, and tells `progress` how far the search is.
    fn shrink<P: Progress>(
        alloc: Global,
        nets: &Compared,
        aim: Constraint,
        progress: &mut P,
    ) -> Result<Shrunk, AllocError>
        requires exact { IsSmall nets.now.exact }
        requires takes { takes nets.now.exact }
        requires begin { IsSmall nets.now.approx }
        requires within { IsWithin aim.metric nets.now.exact aim.bound nets.now.approx }
        requires limit { 1 ≤ aim.limit }
        ensures shrinking { IfOk result (λ s. IsShrinking aim nets.now.exact nets.now.approx
            (record { net = s.net; pool = s.pool.vectors; spent = option_map spent_value s.spent })) }
        ensures pool { IfOk result (λ s. s.pool.inputs ≡ input_count nets.now.exact) };

    /// Finds the greatest error of an approximate net that is within the bound, and tells `progress` how far
    /// the search is.
    fn maximum<P: Progress>(
        alloc: Global,
        nets: &Compared,
        aim: Constraint,
        progress: &mut P,
    ) -> Result<Maximum, AllocError>
        requires small { IsSmall nets.now.exact }
        requires takes { takes nets.now.exact }
        requires limit { 1 ≤ aim.limit }
        requires within { IsWithin aim.metric nets.now.exact aim.bound nets.now.approx }
        ensures { IfOk result (IsMaximumAnswer aim nets.now.exact nets.now.approx) };
}
