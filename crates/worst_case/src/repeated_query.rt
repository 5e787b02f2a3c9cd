//! A question that one query leaves open is put again, before its conflicts count as spent.
//!
//! Further queries begin with all that earlier ones learned, and forget what does not help. Each log begins
//! with the first query's log. Where every query leaves the question open, the answer has the first query's
//! log: of this log alone it is known that each of its conflicts says something new.
ghost use Rattle.std.specs.Prelude.{◌≡◌, ◌<◌, ◌≤◌, length, take, IfOk};
ghost use Rattle.semantics.specs.Net.{input_count};
ghost use Rattle.proof_semantics.specs.Logs.{IsDerivation};
ghost use Rattle.cdcl_core.specs.Outcomes.{IsOutcome};
ghost use Rattle.worst_case.specs.Exceeds.{IsAsked, IsChainOn, IsPosed};

use crate::options::{EARLY_CONFLICTS, MOST_QUERIES};
use crate::solver_query::{Question, ask_once, input_bits, kept_refutation, pose};
use cdcl_core::forgetting::solve_forgetting;
use cdcl_core::outcome::Outcome;
use level_answers::query::{Exceed, Spent};
use net_core::items::Items;
use net_errors::compared::Compared;
use progress::progress::Progress;
use proof_parts::log::{Item, Log};
use proof_semantics::constraint::Constraint;
use semantics::limits::FEW_INPUTS;
use std::alloc::{AllocError, Global};

/// Makes further queries behind `derived`, until one of them decides the formula, or there were
/// `MOST_QUERIES` with the one that came before: one search that forgets, with the conflicts of all of them.
/// Tells `progress` what the solver does.
fn ask_further<P: Progress>(
    alloc: Global,
    question: &Question,
    derived: Log,
    progress: &mut P,
) -> Result<Outcome, AllocError>
    requires limit { 1 ≤ question.now.aim.limit }
    requires derived { IsDerivation question.now.joint.formula derived }
    ensures { IfOk result (IsOutcome question.now.joint.formula derived) }
{
    progress.asked();
    let formula = &question.joint.formula;
    let conflicts = question.aim.limit.saturating_mul(MOST_QUERIES - 1);
    solve_forgetting(
        alloc,
        formula,
        derived,
        &question.guide,
        conflicts,
        progress,
    )
}

/// The first `count` items of a log. They are taken out of it, and not copied.
fn take_first(alloc: Global, log: &mut Log, count: usize) -> Result<Log, AllocError>
    requires { count ≤ length log.old }
    ensures { IfOk result (λ first. first ≡ take count log.old) }
{
    let mut first = Items::new(alloc);
    for i in 0..count {
        first.push(log.replace(i, Item::Remove(Items::new(alloc))))?;
    }
    Ok(first)
}

/// What further queries of the question come to behind its first query, which was spent. Where all leave the
/// question open, the answer is the spent query.
pub(crate) fn ask_again<P: Progress>(
    alloc: Global,
    nets: &Compared,
    question: &Question,
    spent: Spent,
    progress: &mut P,
) -> Result<Exceed, AllocError>
    requires many_inputs { FEW_INPUTS < input_count nets.now.exact }
    requires limit { 1 ≤ question.now.aim.limit }
    requires posed { IsPosed nets.now.exact nets.now.approx question.now }
    requires spent { IsChainOn question.now.aim nets.now.exact nets.now.approx spent }
    ensures { IfOk result (IsAsked question.now.aim nets.now.exact nets.now.approx) }
{
    let Spent {
        net,
        k,
        merged,
        log,
    } = spent;
    let count = log.len();
    let outcome = ask_further(alloc, question, log, progress)?;
    match outcome {
        Outcome::Model(values) => Ok(Exceed::Over(input_bits(alloc, nets.exact(), &values)?)),
        Outcome::Refuted(log) => {
            let kept = kept_refutation(alloc, nets, question, merged as usize, &log)?;
            Ok(Exceed::Never(kept))
        }
        Outcome::Open(mut log) => {
            let log = take_first(alloc, &mut log, count)?;
            Ok(Exceed::Spent(Spent {
                net,
                k,
                merged,
                log,
            }))
        }
    }
}

/// An input whose error exceeds the bound, a log that refutes that there is such an input, or a log with as
/// many conflicts as the limit behind the merges, where no query of the question decides it.
fn ask_within<P: Progress>(
    alloc: Global,
    nets: &Compared,
    aim: Constraint,
    progress: &mut P,
) -> Result<Exceed, AllocError>
    requires many_inputs { FEW_INPUTS < input_count nets.now.exact }
    requires limit { 1 ≤ aim.limit }
    ensures { IfOk result (IsAsked aim nets.now.exact nets.now.approx) }
{
    let question = pose(alloc, nets, aim)?;
    let first = ask_once(alloc, nets, &question, progress)?;
    match first {
        Exceed::Spent(spent) => ask_again(alloc, nets, &question, spent, progress),
        decided => Ok(decided),
    }
}

/// An answer as [`ask_within`] gives it. Where more than `EARLY_CONFLICTS` conflicts are allowed, the
/// question is first asked within these: a search that forgets is behind them soon, and is mostly the quicker
/// one. What that leaves open counts for nothing, since a spent query has to have all the conflicts that are
/// allowed.
pub(crate) fn ask_repeatedly<P: Progress>(
    alloc: Global,
    nets: &Compared,
    aim: Constraint,
    progress: &mut P,
) -> Result<Exceed, AllocError>
    requires many_inputs { FEW_INPUTS < input_count nets.now.exact }
    requires limit { 1 ≤ aim.limit }
    ensures { IfOk result (IsAsked aim nets.now.exact nets.now.approx) }
{
    if aim.limit > EARLY_CONFLICTS {
        let early = Constraint {
            limit: EARLY_CONFLICTS,
            ..aim
        };
        match ask_within(alloc, nets, early, progress)? {
            Exceed::Over(x) => return Ok(Exceed::Over(x)),
            Exceed::Never(log) => return Ok(Exceed::Never(log)),
            Exceed::Spent(_) => {}
        }
    }
    ask_within(alloc, nets, aim, progress)
}
