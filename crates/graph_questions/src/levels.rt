//! The question whether the error of an approximate net exceeds a level.
//!
//! A model is tried on the nets themselves, so only a refutation rests on the clauses. Where a change makes a
//! small error, few low places of the outputs are enough, and the rest of both nets is not looked at.
ghost use Rattle.std.specs.Prelude.{◌≡◌, ◌<◌, ◌≤◌, length, IfOk, IfSome};
ghost use Rattle.semantics.specs.Net.{input_count};
ghost use Rattle.bdd_levels.specs.Levels.{IsLevelDecided, IsLevelOf};
ghost use Rattle.graph_questions.specs.Levels.{IsChangeFor, asked_of, question_of};
ghost use Rattle.graph_questions.specs.Gaps.{IsGapOf};

use crate::gap::Gap;
use crate::gap_question::gap_places;
use crate::goal::goal_of;
use crate::nearness::enough_places;
use crate::question::ask_solver;
use aig_core::literal::constant;
use bdd_levels::level::Level;
use bdd_nets::ever_true::Decision;
use cdcl_core::answer::Answer;
use net_core::items::Bits;
use net_core::net::Net;
use net_errors::compared::Compared;
use net_errors::net_error::error_at;
use net_errors::ports::same_ports;
use net_search::judging::Change;
use progress::progress::Progress;
use proof_semantics::constraint::Constraint;
use std::alloc::{AllocError, Global};

/// The input vector of a model, where the error exceeds the level there.
pub(crate) fn tried(
    alloc: Global,
    nets: &Compared,
    level: &Level,
    model: &Bits,
) -> Result<Decision, AllocError>
    requires width { input_count nets.now.exact < length model.now }
    ensures { IfOk result
        (IsLevelDecided level.now.metric nets.now.exact nets.now.approx level.now.k) }
{
    let x = &model.as_slice()[1..nets.exact().inputs() as usize + 1];
    if error_at(alloc, nets, level.metric, x)? > level.k {
        Ok(Decision::At(x.to_vec(alloc)?))
    } else {
        Ok(Decision::Unknown)
    }
}

/// Whether the error of the approximate net exceeds the level, or neither where the solver had its conflicts:
/// few at first, and then `limit` of a search that forgets. A change, where there is one, tells a net that
/// keeps the level and the signal in whose function alone the approximate net differs from it. Tells
/// `progress` what the solver does. Want of memory is the only error.
pub fn decide<P: Progress>(
    alloc: Global,
    nets: &Compared,
    change: Option<&Change>,
    level: &Level,
    limit: u64,
    progress: &mut P,
) -> Result<Decision, AllocError>
    requires limit { 1 ≤ limit }
    requires level { IsLevelOf nets.now.exact level.now }
    requires change { IfSome change (λ c. IsChangeFor (question_of nets.now level.now) c.now) }
    ensures { IfOk result
        (IsLevelDecided level.now.metric nets.now.exact nets.now.approx level.now.k) }
{
    let places = match change {
        Some(change) => enough_places(alloc, nets, change, level, limit, progress)?,
        None => None,
    };
    let goal = goal_of(alloc, nets, change, level, places)?;
    goal.graph.values();
    if goal.literal == constant(false) {
        return Ok(Decision::Never);
    }
    match ask_solver(alloc, &goal.graph, goal.literal, limit, progress)? {
        Answer::Refuted(_) => Ok(Decision::Never),
        Answer::Spent(_) => Ok(Decision::Unknown),
        Answer::Model(model) => tried(alloc, nets, level, &model),
    }
}

/// Whether a gap was kept of which nothing is asked any more.
fn is_lost(kept: &Option<Gap>) -> bool {
    match kept {
        Some(gap) => gap.is_lost,
        None => false,
    }
}

/// The gap of so many places that was kept, or else one that begins with the exact net.
fn gap_for(alloc: Global, exact: &Net, kept: Option<Gap>, places: u32) -> Result<Gap, AllocError>
    requires few { places ≤ 31 }
    requires in_outputs { places ≤ length exact.now.outputs }
    requires kept { IfSome kept (IsGapOf exact.now) }
    ensures gap { IfOk result (IsGapOf exact.now) }
    ensures places { IfOk result (λ gap. gap.places ≡ places) }
{
    match kept {
        Some(gap) if gap.places() == places => Ok(gap),
        _ => Gap::begin(alloc, exact, places),
    }
}

/// Whether the error of an approximate net exceeds the level, as [`decide`] says, by the gap that is kept
/// along a chain, where the error is the distance of two numbers and few low places of the outputs are
/// enough.
pub fn decide_along<P: Progress>(
    alloc: Global,
    nets: &Compared,
    change: &Change,
    kept: &mut Option<Gap>,
    aim: Constraint,
    progress: &mut P,
) -> Result<Decision, AllocError>
    requires limit { 1 ≤ aim.limit }
    requires kept { IfSome kept.old (IsGapOf nets.now.exact) }
    requires change { IsChangeFor (asked_of nets.now aim) change.now }
    ensures kept { IfSome kept.new (IsGapOf nets.now.exact) }
    ensures answer { IfOk result
        (IsLevelDecided aim.metric nets.now.exact nets.now.approx aim.bound) }
{
    let level = Level::new(alloc, nets.exact(), aim.metric, aim.bound)?;
    let Some(places) = gap_places(&level, nets.exact().outputs()) else {
        return Ok(Decision::Unknown);
    };
    if !same_ports(change.before, nets.approx()) {
        return Ok(Decision::Unknown);
    }
    if is_lost(kept) {
        return Ok(Decision::Unknown);
    }
    let mut gap = gap_for(alloc, nets.exact(), kept.take(), places)?;
    let decision = gap.decide(alloc, nets, change, &level, aim.limit, progress)?;
    *kept = Some(gap);
    Ok(decision)
}
