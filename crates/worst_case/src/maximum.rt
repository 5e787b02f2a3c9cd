//! The greatest error of an approximate net, found by queries.
//!
//! The greatest error lies between an error that some input has and a level that no input's error exceeds.
//! Diagrams are asked first whether the known error is the greatest. Where they do not tell and there are at
//! most 24 inputs, every vector is tried; with more inputs each query narrows the range between the two
//! levels. The log that is returned refutes that any error exceeds the greatest.
ghost use Rattle.std.specs.Prelude.{◌≡◌, ◌≤◌, IfOk};
ghost use Rattle.semantics.specs.Net.{IsSmall};
ghost use Rattle.semantics.specs.Error.{IsWithin};
ghost use Rattle.level_answers.specs.Maximum.{IsMaximumAnswer};
ghost use Rattle.worst_case.specs.Maximum.{IsRange, IsEnd};

use crate::judge::Judge;
use crate::range::{Range, climb_range, first_range, narrow, try_known};
use crate::refutation::refute_level;
use level_answers::query::{Exceed, Maximum, Spent};
use net_errors::compared::Compared;
use progress::progress::Progress;
use proof_semantics::constraint::Constraint;
use std::alloc::{AllocError, Global};

/// Tells `progress` the level at which the range is closed, and answers this level as the greatest error.
/// Where the range has no log for the level, a log is asked for.
fn settle<P: Progress>(
    alloc: Global,
    nets: &Compared,
    aim: Constraint,
    range: Range,
    progress: &mut P,
) -> Result<Maximum, AllocError>
    requires limit { 1 ≤ aim.limit }
    requires range { IsRange aim nets.now.exact nets.now.approx range }
    requires closed { range.high ≤ range.low }
    ensures { IfOk result (IsMaximumAnswer aim nets.now.exact nets.now.approx) }
{
    let Range {
        low: max,
        witness,
        log,
        ..
    } = range;
    progress.narrowed(max, max);
    if let Some(log) = log {
        return Ok(Maximum::Found { max, witness, log });
    }
    match refute_level(alloc, nets, Constraint { bound: max, ..aim }, progress)? {
        Exceed::Over(_) => unreachable!(),
        Exceed::Never(log) => Ok(Maximum::Found { max, witness, log }),
        Exceed::Spent(spent) => Ok(Maximum::Spent(spent)),
    }
}

/// Narrows the range by queries until its levels meet, and tells `progress` each range before its query.
/// Returns the spent query, if one was spent.
fn close<P: Progress>(
    alloc: Global,
    nets: &Compared,
    judge: &mut Judge,
    aim: Constraint,
    range: &mut Range,
    progress: &mut P,
) -> Result<Option<Spent>, AllocError>
    requires judge { judge.old ≡ nets.now.exact }
    requires limit { 1 ≤ aim.limit }
    requires range { IsRange aim nets.now.exact nets.now.approx range.old }
    ensures { IfOk result (IsEnd aim nets.now.exact nets.now.approx range.new) }
{
    while range.low < range.high {
        progress.narrowed(range.low, range.high);
        let spent = narrow(alloc, nets, judge, aim, range, progress)?;
        if let Some(spent) = spent {
            return Ok(Some(spent));
        }
    }
    Ok(None)
}

/// The range whose levels meet, or the range that a spent query left. Diagrams are asked first whether the
/// known error is the greatest.
fn closed_range<P: Progress>(
    alloc: Global,
    nets: &Compared,
    aim: Constraint,
    progress: &mut P,
) -> Result<(Range, Option<Spent>), AllocError>
    requires small { IsSmall nets.now.exact }
    requires limit { 1 ≤ aim.limit }
    requires within { IsWithin aim.metric nets.now.exact aim.bound nets.now.approx }
    ensures { IfOk result (λ closed. IsEnd aim nets.now.exact nets.now.approx closed.0 closed.1) }
{
    let mut judge = Judge::new(alloc, nets.exact())?;
    let mut range = first_range(alloc, nets, &judge, aim)?;
    try_known(alloc, nets, &mut judge, aim, &mut range)?;
    climb_range(alloc, nets, aim, &mut range)?;
    let spent = close(alloc, nets, &mut judge, aim, &mut range, progress)?;
    Ok((range, spent))
}

/// The greatest error of a net that keeps the bound; with at most eight inputs the witness is the first
/// vector in counting order that has this error. There are at most 170 queries. Tells `progress` the bound at
/// the beginning, and each range up to the one whose levels meet, before the log is asked for.
pub fn maximum<P: Progress>(
    alloc: Global,
    nets: &Compared,
    aim: Constraint,
    progress: &mut P,
) -> Result<Maximum, AllocError>
    requires small { IsSmall nets.now.exact }
    requires limit { 1 ≤ aim.limit }
    requires within { IsWithin aim.metric nets.now.exact aim.bound nets.now.approx }
    ensures { IfOk result (IsMaximumAnswer aim nets.now.exact nets.now.approx) }
{
    progress.narrowed(0, aim.bound);
    let (range, spent) = closed_range(alloc, nets, aim, progress)?;
    match spent {
        Some(spent) => Ok(Maximum::Spent(spent)),
        None => settle(alloc, nets, aim, range, progress),
    }
}
