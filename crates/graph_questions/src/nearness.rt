//! Whether a few low places of the outputs are enough for a question along the chain.
//!
//! The net before the change keeps the level. Where the change makes an error of its own that is not too
//! large, the error of the net after it is less than 2 to the number of places, less the level, so it is
//! seen from the low places. Whether the change makes a larger error is a question to the solver too. It is
//! mostly an easy one, since the two nets differ in one signal.
ghost use Rattle.std.specs.Prelude.{◌≡◌, ◌-◌, ◌^◌, ◌<◌, ◌≤◌, length, IfOk, IfSome, IsTrue};
ghost use Rattle.semantics.specs.Error.{IsCandidate, IsWithin};
ghost use Rattle.semantics.specs.Net.{HasSamePorts};
ghost use Rattle.net_search.specs.Judging.{IsChange};
ghost use Rattle.bdd_levels.specs.Levels.{IsLevelOf};
ghost use Rattle.graph_questions.specs.Levels.{IsChangeFor, question_of};
ghost use Rattle.graph_questions.specs.LowPlaces.{IsDistance, AreEnough};

use crate::goal::goal_of;
use crate::low_places::power_of_two;
use crate::question::ask_solver;
use aig_core::literal::constant;
use bdd_levels::level::Level;
use cdcl_core::answer::Answer;
use net_core::net::Net;
use net_errors::compared::Compared;
use net_errors::ports::same_ports;
use net_search::judging::Change;
use progress::progress::Progress;
use semantics::limits::MOST_OUTPUTS;
use semantics::metric::{Kind, Metric};
use std::alloc::{AllocError, Global};

/// Low places are looked at alone where they spare this number of outputs or more.
const LEAST_SPARED: u32 = 2;

/// The conflicts of the question whether a change makes a small error. `bench/WIDE.md` has a filter of seven
/// taps, whose questions by low places end in a tenth of the time.
const NEAR_CONFLICTS: u64 = 10_000;

/// Whether the error is the distance of the numbers of all outputs, without or with a sign.
pub(crate) fn is_distance(metric: Metric) -> bool
    ensures { IsTrue result → IsDistance metric }
{
    match metric.kind {
        Kind::Abs | Kind::Sabs => metric.width.is_none(),
        Kind::Rel | Kind::Ham => false,
    }
}

/// The least number of places of which a quarter of the numbers exceed `k`, where it spares enough outputs.
pub(crate) fn least_places(k: u128, outputs: u32) -> Option<u32>
    requires { outputs ≤ MOST_OUTPUTS }
    ensures { IfSome result (λ p. (2 ≤ p) × (p < outputs) × (k < 2 ^ (p - 2))) }
{
    for places in 2..(outputs + 1).saturating_sub(LEAST_SPARED) {
        if k < power_of_two(places - 2) {
            return Some(places);
        }
    }
    None
}

/// Whether the change makes no error above a level of the net before it. A budget that was spent says no.
fn is_near<P: Progress>(
    alloc: Global,
    change: &Change,
    after: &Net,
    far: &Level,
    limit: u64,
    progress: &mut P,
) -> Result<bool, AllocError>
    requires limit { 1 ≤ limit }
    requires candidate { IsCandidate change.now.before.now after.now }
    requires change { IsChange change.now.before.now after.now change.now.signal }
    requires level { IsLevelOf change.now.before.now far.now }
    ensures { IfOk result
        (λ near. IsTrue near → IsWithin far.now.metric change.now.before.now far.now.k after.now) }
{
    let nets = Compared::new(change.before, after);
    let goal = goal_of(alloc, &nets, Some(change), far, None)?;
    goal.graph.values();
    if goal.literal == constant(false) {
        return Ok(true);
    }
    match ask_solver(alloc, &goal.graph, goal.literal, limit, progress)? {
        Answer::Refuted(_) => Ok(true),
        _ => Ok(false),
    }
}

/// Whether a change makes an error of its own that is small enough for so many low places of the outputs to
/// be enough, as far as a few conflicts show.
pub(crate) fn is_small_change<P: Progress>(
    alloc: Global,
    nets: &Compared,
    change: &Change,
    level: &Level,
    places: u32,
    limit: u64,
    progress: &mut P,
) -> Result<bool, AllocError>
    requires limit { 1 ≤ limit }
    requires change { IsChangeFor (question_of nets.now level.now) change.now }
    requires ports { HasSamePorts change.now.before.now nets.now.approx }
    requires distance { IsDistance level.now.metric }
    requires some { 2 ≤ places }
    requires spared { places < length nets.now.exact.outputs }
    requires fits { level.now.k < 2 ^ (places - 2) }
    ensures { IfOk result (λ small. IsTrue small → AreEnough (question_of nets.now level.now) places) }
{
    nets.exact();
    let most = power_of_two(places) - 1 - 2 * level.k;
    let far = Level::new(alloc, change.before, level.metric, most)?;
    let few = limit.min(NEAR_CONFLICTS);
    is_near(alloc, change, nets.approx(), &far, few, progress)
}

/// How many low places of the outputs are enough to say whether the error exceeds the level, where that is
/// found out within a few conflicts.
pub(crate) fn enough_places<P: Progress>(
    alloc: Global,
    nets: &Compared,
    change: &Change,
    level: &Level,
    limit: u64,
    progress: &mut P,
) -> Result<Option<u32>, AllocError>
    requires limit { 1 ≤ limit }
    requires change { IsChangeFor (question_of nets.now level.now) change.now }
    ensures { IfOk result (λ found. IfSome found (AreEnough (question_of nets.now level.now))) }
{
    if !is_distance(level.metric) || !same_ports(change.before, nets.approx()) {
        return Ok(None);
    }
    let Some(places) = least_places(level.k, nets.exact().outputs()) else {
        return Ok(None);
    };
    if is_small_change(alloc, nets, change, level, places, limit, progress)? {
        Ok(Some(places))
    } else {
        Ok(None)
    }
}
