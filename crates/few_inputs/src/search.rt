//! The three searches over every input vector.
ghost use Rattle.std.specs.Prelude.{◌≤◌, IfOk};
ghost use Rattle.semantics.specs.Net.{input_count};
ghost use Rattle.semantics.specs.Error.{net_error};
ghost use Rattle.semantics.specs.Vectors.{IsFirstGreatestAt};
ghost use Rattle.level_answers.specs.Maximum.{IsMaximumAnswer};
ghost use Rattle.net_search.specs.Bounds.{IsBoundAnswer};
ghost use Rattle.every_vector.specs.Vectors.{IsEveryVectorHeld};

use crate::judge::VectorJudge;
use every_vector::by_cases::refute_by_cases;
use every_vector::vectors::{Attained, greatest_of, hold_every_vector, try_vectors};
use lane_nets::reference::Reference;
use level_answers::margin::Margin;
use level_answers::query::Maximum;
use net_core::net::Net;
use net_errors::compared::Compared;
use net_search::search::{Search, Shrunk};
use progress::progress::Progress;
use proof_semantics::constraint::Constraint;
use semantics::limits::FEW_INPUTS;
use semantics::metric::Metric;
use std::alloc::{AllocError, Global};
use synth_core::shrink::shrink_from;

/// The exact net's outputs at every input vector in counting order.
pub(crate) fn hold<'a>(alloc: Global, exact: &'a Net) -> Result<Reference<'a>, AllocError>
    requires { input_count exact.now ≤ FEW_INPUTS }
    ensures { IfOk result (IsEveryVectorHeld exact.now) }
{
    match hold_every_vector(alloc, exact, FEW_INPUTS)? {
        Some(every) => Ok(every),
        None => unreachable!(),
    }
}

/// The first vector in counting order whose error exceeds the bound, or that there is none.
#[tactic(auto, using(every_vector::proofs::Tried::over_first))]
fn first_over(
    alloc: Global,
    nets: &Compared,
    every: &Reference,
    aim: Constraint,
) -> Result<Margin, AllocError>
    requires { IsEveryVectorHeld nets.now.exact every.now }
    ensures { IfOk result (IsBoundAnswer aim nets.now.exact nets.now.approx) }
{
    match try_vectors(alloc, nets, every, aim)? {
        Some(x) => Ok(Margin::Over(x)),
        None => Ok(Margin::Within),
    }
}

/// The greatest error, and the first vector in counting order that has it.
fn greatest(
    alloc: Global,
    nets: &Compared,
    every: &Reference,
    metric: Metric,
) -> Result<Attained, AllocError>
    requires { IsEveryVectorHeld nets.now.exact every.now }
    ensures { IfOk result (λ a. IsFirstGreatestAt (input_count nets.now.exact)
        (net_error metric nets.now.exact nets.now.approx) a.error a.witness) }
{
    greatest_of(alloc, nets, metric, every)
}

/// The greatest error with its log, which goes by cases.
#[tactic(auto, using(crate::proofs::Few::maximum_of))]
fn with_log(
    alloc: Global,
    nets: &Compared,
    best: Attained,
    aim: Constraint,
) -> Result<Maximum, AllocError>
    requires few { input_count nets.now.exact ≤ FEW_INPUTS }
    requires best { IsFirstGreatestAt (input_count nets.now.exact)
        (net_error aim.metric nets.now.exact nets.now.approx) best.error best.witness }
    ensures { IfOk result (IsMaximumAnswer aim nets.now.exact nets.now.approx) }
{
    let max = best.error;
    let log = refute_by_cases(alloc, nets, Constraint { bound: max, ..aim })?;
    Ok(Maximum::Found {
        max,
        witness: best.witness,
        log,
    })
}

/// The search for nets with at most eight inputs.
pub struct VectorSearch;

impl Search for VectorSearch {
    ghost use Rattle.semantics.specs.declared.limits.TheConstants.{FEW_INPUTS};

    ghost takes = { λ net. input_count net ≤ FEW_INPUTS };

    fn within<P: Progress>(
        alloc: Global,
        nets: &Compared,
        aim: Constraint,
        _progress: &mut P,
    ) -> Result<Margin, AllocError> {
        let every = hold(alloc, nets.exact())?;
        first_over(alloc, nets, &every, aim)
    }

    fn shrink<P: Progress>(
        alloc: Global,
        nets: &Compared,
        aim: Constraint,
        progress: &mut P,
    ) -> Result<Shrunk, AllocError> {
        shrink_from::<VectorJudge, P>(alloc, nets, aim, progress)
    }

    fn maximum<P: Progress>(
        alloc: Global,
        nets: &Compared,
        aim: Constraint,
        progress: &mut P,
    ) -> Result<Maximum, AllocError> {
        progress.narrowed(0, aim.bound);
        let every = hold(alloc, nets.exact())?;
        let best = greatest(alloc, nets, &every, aim.metric)?;
        progress.narrowed(best.error, best.error);
        with_log(alloc, nets, best, aim)
    }
}
