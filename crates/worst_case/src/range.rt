//! The two levels between which the greatest error lies, and the query that narrows the range.
ghost use Rattle.std.specs.Prelude.{◌≡◌, ◌≤◌, ◌<◌, ℕ, length, IfOk, OnOk, IsTrue};
ghost use Rattle.semantics.specs.Net.{input_count};
ghost use Rattle.semantics.specs.Error.{IsWithin, net_error};
ghost use Rattle.worst_case.specs.Maximum.{IsNarrowed, IsRange, IsRangeOrSpent};

use crate::climbing::climb;
use crate::exceeds::exceeds;
use crate::judge::Judge;
use crate::options::LANE_INPUTS;
use every_vector::vectors::greatest_of;
use level_answers::margin::Margin;
use level_answers::query::{Exceed, Spent};
use net_core::items::Bits;
use net_errors::compared::Compared;
use net_errors::net_error::error_at;
use progress::progress::Progress;
use proof_parts::log::Log;
use proof_semantics::constraint::Constraint;
use semantics::limits::LARGEST_ERROR;
use semantics::metric::Metric;
use std::alloc::{AllocError, Global};

/// An error that the witness has, and a level that no error exceeds; the log, where one is held, shows the
/// latter. The next question is at most `reach` above the error.
#[derive(Drop)]
pub struct Range {
    pub low: u128,
    pub witness: Bits,
    pub high: u128,
    pub log: Option<Log>,
    pub reach: u128,
}

/// The range to begin with: the greatest error of the known vectors, and the bound.
pub fn first_range(
    alloc: Global,
    nets: &Compared,
    judge: &Judge,
    aim: Constraint,
) -> Result<Range, AllocError>
    requires judge { judge.now ≡ nets.now.exact }
    requires within { IsWithin aim.metric nets.now.exact aim.bound nets.now.approx }
    ensures { IfOk result (IsRange aim nets.now.exact nets.now.approx) }
{
    let best = greatest_of(alloc, nets, aim.metric, judge.known())?;
    let high = if nets.exact().inputs() <= LANE_INPUTS {
        best.error
    } else {
        aim.bound.min(LARGEST_ERROR)
    };
    Ok(Range {
        low: best.error,
        witness: best.witness,
        high,
        log: None,
        reach: 0,
    })
}

/// Raises the lower level to the error of an input, and doubles the reach, which then is 1 at least.
fn raise(
    alloc: Global,
    nets: &Compared,
    metric: Metric,
    range: &mut Range,
    x: Bits,
) -> Result<(), AllocError>
    requires width { length x ≡ input_count nets.now.exact }
    ensures { OnOk result (range.new
        ≡ record range.old {
          low = net_error metric nets.now.exact nets.now.approx x;
          witness = x;
          reach = range.new.reach;
        }) }
{
    range.low = error_at(alloc, nets, metric, x.as_slice())?;
    range.witness = x;
    range.reach = range.reach.saturating_mul(2).max(1);
    Ok(())
}

/// Lowers the upper level to `high`, which no error exceeds; the log, where one is given, shows this.
fn lower(range: &mut Range, high: u128, log: Option<Log>)
    ensures { range.new ≡ record range.old { high = high; log = log } }
{
    range.high = high;
    range.log = log;
}

/// The level of the next question: as far above the known error as the range reaches, or in its middle.
fn next_level(range: &Range) -> u128
    requires { range.now.low < range.now.high }
    ensures above { range.now.low ≤ result }
    ensures below { result < range.now.high }
{
    range.low + range.reach.min((range.high - range.low) / 2)
}

/// Sets both levels to the greatest error of every vector, where there are at most 24 inputs. Returns whether
/// this was done; if not, the range stays.
fn close_by_every_vector(
    alloc: Global,
    nets: &Compared,
    judge: &mut Judge,
    aim: Constraint,
    range: &mut Range,
) -> Result<bool, AllocError>
    requires judge { judge.old ≡ nets.now.exact }
    ensures same { judge.new ≡ judge.old }
    ensures range { OnOk result (IsRange aim nets.now.exact nets.now.approx range.old
        → IsRange aim nets.now.exact nets.now.approx range.new) }
    ensures closed { IfOk result (λ closed. IsTrue closed → range.new.high ≤ range.new.low) }
    ensures open { IfOk result (λ closed. ¬ IsTrue closed → range.new ≡ range.old) }
{
    let Some(best) = judge.greatest_of_every(alloc, nets, aim.metric)? else {
        return Ok(false);
    };
    *range = Range {
        low: best.error,
        witness: best.witness,
        high: best.error,
        log: None,
        reach: 0,
    };
    Ok(true)
}

/// Asks diagrams whether some error exceeds the known error. Often none does, since many vectors were tried,
/// and then the levels of the range meet at once. Where the diagrams do not tell, every vector is tried, if
/// there are at most 24 inputs.
pub fn try_known(
    alloc: Global,
    nets: &Compared,
    judge: &mut Judge,
    aim: Constraint,
    range: &mut Range,
) -> Result<(), AllocError>
    requires judge { judge.old ≡ nets.now.exact }
    ensures same { judge.new ≡ judge.old }
    ensures range { OnOk result (IsRange aim nets.now.exact nets.now.approx range.old
        → IsRange aim nets.now.exact nets.now.approx range.new) }
{
    if range.low >= range.high {
        return Ok(());
    }
    let bound = range.low;
    match judge.by_diagrams(alloc, nets, Constraint { bound, ..aim })? {
        Some(Margin::Over(x)) => raise(alloc, nets, aim.metric, range, x),
        Some(Margin::Within) => {
            lower(range, bound, None);
            Ok(())
        }
        _ => {
            close_by_every_vector(alloc, nets, judge, aim, range)?;
            Ok(())
        }
    }
}

/// Raises the lower level to the error of a vector that is found by climbing from the witness, where the
/// levels do not meet yet.
pub fn climb_range(
    alloc: Global,
    nets: &Compared,
    aim: Constraint,
    range: &mut Range,
) -> Result<(), AllocError>
    ensures { OnOk result (IsRange aim nets.now.exact nets.now.approx range.old
        → IsRange aim nets.now.exact nets.now.approx range.new) }
{
    if range.low >= range.high || range.witness.len() != nets.exact().inputs() as usize {
        return Ok(());
    }
    let bound = range.high;
    let best = climb(
        alloc,
        nets,
        Constraint { bound, ..aim },
        range.witness.as_slice(),
    )?;
    if best.error > range.low {
        range.low = best.error;
        range.witness = best.witness;
    }
    Ok(())
}

/// Asks the solver whether some error exceeds the next level of the range.
fn narrow_by_solver<P: Progress>(
    alloc: Global,
    nets: &Compared,
    aim: Constraint,
    range: &mut Range,
    progress: &mut P,
) -> Result<Option<Spent>, AllocError>
    requires limit { 1 ≤ aim.limit }
    requires open { range.old.low < range.old.high }
    ensures range { IfOk result (λ spent. IsRange aim nets.now.exact nets.now.approx range.old
        → IsRangeOrSpent aim nets.now.exact nets.now.approx range.new spent) }
    ensures narrowed { IfOk result (IsNarrowed range.old range.new) }
{
    let bound = next_level(range);
    match exceeds(alloc, nets, Constraint { bound, ..aim }, progress)? {
        Exceed::Over(x) => raise(alloc, nets, aim.metric, range, x)?,
        Exceed::Never(log) => lower(range, bound, Some(log)),
        Exceed::Spent(spent) => return Ok(Some(spent)),
    }
    Ok(None)
}

/// Closes the range by every vector, or asks the solver whether some error exceeds the next level of the
/// range.
fn narrow_without_diagrams<P: Progress>(
    alloc: Global,
    nets: &Compared,
    judge: &mut Judge,
    aim: Constraint,
    range: &mut Range,
    progress: &mut P,
) -> Result<Option<Spent>, AllocError>
    requires judge { judge.old ≡ nets.now.exact }
    requires limit { 1 ≤ aim.limit }
    requires open { range.old.low < range.old.high }
    ensures same { judge.new ≡ judge.old }
    ensures range { IfOk result (λ spent. IsRange aim nets.now.exact nets.now.approx range.old
        → IsRangeOrSpent aim nets.now.exact nets.now.approx range.new spent) }
    ensures narrowed { IfOk result (IsNarrowed range.old range.new) }
{
    if close_by_every_vector(alloc, nets, judge, aim, range)? {
        return Ok(None);
    }
    narrow_by_solver(alloc, nets, aim, range, progress)
}

/// Asks the diagrams whether some error exceeds the next level of the range, and narrows the range by the
/// answer. Where they do not answer, every vector is tried or, with more than 24 inputs, the solver is asked.
/// Returns the spent query, if one was spent.
pub fn narrow<P: Progress>(
    alloc: Global,
    nets: &Compared,
    judge: &mut Judge,
    aim: Constraint,
    range: &mut Range,
    progress: &mut P,
) -> Result<Option<Spent>, AllocError>
    requires judge { judge.old ≡ nets.now.exact }
    requires limit { 1 ≤ aim.limit }
    requires open { range.old.low < range.old.high }
    ensures same { judge.new ≡ judge.old }
    ensures range { IfOk result (λ spent. IsRange aim nets.now.exact nets.now.approx range.old
        → IsRangeOrSpent aim nets.now.exact nets.now.approx range.new spent) }
    ensures narrowed { IfOk result (IsNarrowed range.old range.new) }
{
    let bound = next_level(range);
    match judge.by_diagrams(alloc, nets, Constraint { bound, ..aim })? {
        Some(Margin::Over(x)) => raise(alloc, nets, aim.metric, range, x)?,
        Some(Margin::Within) => lower(range, bound, None),
        _ => return narrow_without_diagrams(alloc, nets, judge, aim, range, progress),
    }
    Ok(None)
}
