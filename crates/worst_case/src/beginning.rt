//! Whether the net that the chain is to begin with keeps the bound. With few inputs every vector is tried in
//! counting order, so the first at which the error exceeds the bound is told. With more inputs the ways of
//! [`within_level`] are tried in their order: the solver is asked last.
ghost use Rattle.std.specs.Prelude.{◌≤◌, IfOk};
ghost use Rattle.semantics.specs.Net.{IsSmall};
ghost use Rattle.net_search.specs.Bounds.{IsBoundAnswer};

use crate::exceeds::exceeds;
use crate::judge::Judge;
use crate::policy::within_level;
use level_answers::margin::Margin;
use level_answers::query::Exceed;
use net_errors::compared::Compared;
use progress::progress::Progress;
use proof_semantics::constraint::Constraint;
use semantics::limits::FEW_INPUTS;
use std::alloc::{AllocError, Global};

/// The answer with the first vector at which the error exceeds the bound.
fn first_over<P: Progress>(
    alloc: Global,
    nets: &Compared,
    aim: Constraint,
    progress: &mut P,
) -> Result<Margin, AllocError>
    requires limit { 1 ≤ aim.limit }
    ensures { IfOk result (IsBoundAnswer aim nets.now.exact nets.now.approx) }
{
    match exceeds(alloc, nets, aim, progress)? {
        Exceed::Over(x) => Ok(Margin::Over(x)),
        Exceed::Never(_) => Ok(Margin::Within),
        Exceed::Spent(spent) => Ok(Margin::Spent(spent)),
    }
}

/// Whether the error of the approximate net stays within the bound: an input at which it does not, with few
/// inputs the first in counting order, or that there is none.
pub fn within_bound<P: Progress>(
    alloc: Global,
    nets: &Compared,
    aim: Constraint,
    progress: &mut P,
) -> Result<Margin, AllocError>
    requires small { IsSmall nets.now.exact }
    requires limit { 1 ≤ aim.limit }
    ensures { IfOk result (IsBoundAnswer aim nets.now.exact nets.now.approx) }
{
    if nets.exact().inputs() <= FEW_INPUTS {
        return first_over(alloc, nets, aim, progress);
    }
    let mut judge = Judge::new(alloc, nets.exact())?;
    within_level(alloc, nets, &mut judge, aim, progress)
}
