//! Whether some error exceeds a level, asked of the solver, which is first told which tables of the joint net
//! are alike. A question is posed once, and takes one query or more.
ghost use Rattle.std.specs.Prelude.{◌≡◌, ◌<◌, ◌≤◌, ℕ, List, Bool, length, take, IfOk};
ghost use Rattle.semantics.specs.Net.{input_count};
ghost use Rattle.quality_semantics.specs.Joint.{joint_net};
ghost use Rattle.proof_semantics.specs.Logs.{IsDerivation, Refutes};
ghost use Rattle.proof_semantics.specs.Merges.{IsMergeLog};
ghost use Rattle.proof_semantics.specs.Queries.{IsNever};
ghost use Rattle.cdcl_core.specs.declared.answer.Answer.TheVariants.{Model};
ghost use Rattle.worst_case.specs.Exceeds.{IsAsked, IsPosed, told};

use cdcl_core::answer::Answer;
use cdcl_core::guide::Guide;
use cdcl_core::solve::solve_guided;
use every_vector::comparable::see_comparable;
use level_answers::query::{Exceed, Spent};
use merge_log::merges::merges;
use miter::level::{Miter, joint_miter};
use needed_log::needed::needed;
use net_core::items::Bits;
use net_core::net::Net;
use net_errors::compared::Compared;
use progress::progress::Progress;
use proof_parts::log::Log;
use proof_semantics::constraint::Constraint;
use semantics::limits::FEW_INPUTS;
use std::alloc::{AllocError, Global};
use sweep_guide::guide::guide_of;

/// What the queries of a question have in common: what is asked, the miter, its guide, and the merges of its
/// joint net.
#[derive(Drop)]
pub struct Question {
    pub aim: Constraint,
    pub joint: Miter,
    pub guide: Guide,
    pub merged: Log,
}

/// The first bits of a model, one for each input.
pub(crate) fn input_bits(alloc: Global, net: &Net, values: &Bits) -> Result<Bits, AllocError>
    requires { input_count net.now ≤ length values.now }
    ensures { IfOk result (λ x. x ≡ take (input_count net.now) values.now) }
{
    Bits::from_slice(alloc, &values.as_slice()[..net.inputs() as usize])
}

/// The question whether some error exceeds the bound.
pub(crate) fn pose(alloc: Global, nets: &Compared, aim: Constraint) -> Result<Question, AllocError>
    ensures posed { IfOk result (IsPosed nets.now.exact nets.now.approx) }
    ensures aim { IfOk result (λ question. question.aim ≡ aim) }
{
    see_comparable(nets);
    let joint = joint_miter(alloc, nets, aim.metric, aim.bound)?;
    let merged = merges(alloc, &joint.net, &joint.formula)?;
    let guide = guide_of(alloc, &joint.net, true)?;
    Ok(Question {
        aim,
        joint,
        guide,
        merged,
    })
}

/// What an answer of the solver, behind `merged` merged steps, says of the two nets.
fn told_of_nets(
    alloc: Global,
    nets: &Compared,
    k: u128,
    merged: u64,
    answer: Answer,
) -> Result<Exceed, AllocError>
    requires { (bits : List Bool) → answer ≡ Model bits → input_count nets.now.exact ≤ length bits }
    ensures { IfOk result (λ exceed. exceed ≡ told nets.now.exact nets.now.approx k merged answer) }
{
    match answer {
        Answer::Model(values) => Ok(Exceed::Over(input_bits(alloc, nets.exact(), &values)?)),
        Answer::Refuted(log) => Ok(Exceed::Never(log)),
        Answer::Spent(log) => Ok(Exceed::Spent(Spent {
            net: nets.approx().copy()?,
            k,
            merged,
            log,
        })),
    }
}

/// What is kept of a log that refutes the question's miter: its first `first` additions, the merges, and what
/// the empty clause follows from.
pub(crate) fn kept_refutation(
    alloc: Global,
    nets: &Compared,
    question: &Question,
    first: usize,
    log: &Log,
) -> Result<Log, AllocError>
    requires posed { IsPosed nets.now.exact nets.now.approx question.now }
    requires first { first ≤ length log.now }
    requires merged { IsMergeLog
        (joint_net nets.now.exact nets.now.approx question.now.aim.metric question.now.aim.bound)
        (take first log.now) }
    requires derivation { IsDerivation question.now.joint.formula log.now }
    requires refutes { Refutes question.now.joint.formula.clauses log.now }
    ensures { IfOk result
        (IsNever question.now.aim.metric nets.now.exact nets.now.approx question.now.aim.bound) }
{
    let kept = needed(alloc, &question.joint.formula, first, log)?;
    Ok(kept)
}

/// One query of the question: an input whose error exceeds the bound, a log that refutes that there is such
/// an input, or a log with as many conflicts as the limit behind the merges. Tells `progress` what the solver
/// does.
pub(crate) fn ask_once<P: Progress>(
    alloc: Global,
    nets: &Compared,
    question: &Question,
    progress: &mut P,
) -> Result<Exceed, AllocError>
    requires many_inputs { FEW_INPUTS < input_count nets.now.exact }
    requires limit { 1 ≤ question.now.aim.limit }
    requires posed { IsPosed nets.now.exact nets.now.approx question.now }
    ensures { IfOk result (IsAsked question.now.aim nets.now.exact nets.now.approx) }
{
    let merged = question.merged.len();
    let aim = question.aim;
    progress.asked();
    let formula = &question.joint.formula;
    let answer = solve_guided(
        alloc,
        formula,
        &question.merged,
        &question.guide,
        aim.limit,
        progress,
    )?;
    match answer {
        Answer::Refuted(log) => {
            let kept = kept_refutation(alloc, nets, question, merged, &log)?;
            Ok(Exceed::Never(kept))
        }
        other => told_of_nets(alloc, nets, aim.bound, merged as u64, other),
    }
}

/// Poses the question whether some error exceeds the bound, and makes one query of it, as [`ask_once`] does.
pub(crate) fn ask_solver<P: Progress>(
    alloc: Global,
    nets: &Compared,
    aim: Constraint,
    progress: &mut P,
) -> Result<Exceed, AllocError>
    requires many_inputs { FEW_INPUTS < input_count nets.now.exact }
    requires limit { 1 ≤ aim.limit }
    ensures { IfOk result (IsAsked aim nets.now.exact nets.now.approx) }
{
    let question = pose(alloc, nets, aim)?;
    ask_once(alloc, nets, &question, progress)
}
