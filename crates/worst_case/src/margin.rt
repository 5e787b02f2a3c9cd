//! Whether the error stays within a level, where nobody asks for a log: by diagrams, or by the solver.
ghost use Rattle.std.specs.Prelude.{◌≡◌, ◌<◌, ◌≤◌, IfOk, IfSome};
ghost use Rattle.semantics.specs.Net.{input_count};
ghost use Rattle.bdd_levels.specs.Levels.{IsLevelDecided};
ghost use Rattle.level_answers.specs.Levels.{IsLevelAnswer, IsSureAnswer};
ghost use Rattle.worst_case.specs.Exceeds.{IsChainOn, IsPosed};
ghost use Rattle.worst_case.specs.Levels.{without_log};

use crate::options::LANE_INPUTS;
use crate::repeated_query::ask_again;
use crate::solver_query::{Question, ask_once, pose};
use bdd_levels::budgets::LAST_QUESTION_STEPS;
use bdd_levels::decider::Decider;
use bdd_nets::ever_true::Decision;
use level_answers::margin::Margin;
use level_answers::query::{Exceed, Spent};
use net_core::items::Bits;
use net_errors::compared::Compared;
use progress::progress::Progress;
use proof_semantics::constraint::Constraint;
use std::alloc::{AllocError, Global};

/// What a decision without a log says of the two nets: nothing where it is open.
#[tactic(auto, using(crate::proofs::Decided::answer_over, crate::proofs::Decided::answer_within))]
pub(crate) fn decided_margin(
    alloc: Global,
    nets: &Compared,
    aim: Constraint,
    decision: Decision,
) -> Result<Option<Margin>, AllocError>
    requires { IsLevelDecided aim.metric nets.now.exact nets.now.approx aim.bound decision }
    ensures { IfOk result (λ found. IfSome found (IsSureAnswer aim nets.now.exact nets.now.approx)) }
{
    match decision {
        Decision::Never => Ok(Some(Margin::Within)),
        Decision::At(x) => Ok(Some(Margin::Over(Bits::from_slice(alloc, &x)?))),
        Decision::Unknown => Ok(None),
    }
}

/// The answer of the diagrams, where they find one within `steps` steps.
pub(crate) fn by_diagrams(
    alloc: Global,
    nets: &Compared,
    decider: &mut Decider,
    aim: Constraint,
    steps: u64,
) -> Result<Option<Margin>, AllocError>
    requires decider { decider.old ≡ nets.now.exact }
    ensures same { decider.new ≡ decider.old }
    ensures answer { IfOk result
        (λ found. IfSome found (IsSureAnswer aim nets.now.exact nets.now.approx)) }
{
    let decision = decider.decide(alloc, nets.approx(), aim.metric, aim.bound, steps)?;
    decided_margin(alloc, nets, aim, decision)
}

/// What an answer of the solver says where nobody asks for a log.
fn margin_of(exceed: Exceed) -> Margin
    ensures { result ≡ without_log exceed }
{
    match exceed {
        Exceed::Over(x) => Margin::Over(x),
        Exceed::Never(_) => Margin::Within,
        Exceed::Spent(spent) => Margin::Spent(spent),
    }
}

/// The answer to a question whose first query was spent: that of the diagrams, where they find one within
/// `LAST_QUESTION_STEPS` steps, and else that of further queries.
fn by_last_steps<P: Progress>(
    alloc: Global,
    nets: &Compared,
    decider: &mut Decider,
    question: &Question,
    spent: Spent,
    progress: &mut P,
) -> Result<Margin, AllocError>
    requires many_inputs { LANE_INPUTS < input_count nets.now.exact }
    requires decider { decider.old ≡ nets.now.exact }
    requires limit { 1 ≤ question.now.aim.limit }
    requires posed { IsPosed nets.now.exact nets.now.approx question.now }
    requires spent { IsChainOn question.now.aim nets.now.exact nets.now.approx spent }
    ensures same { decider.new ≡ decider.old }
    ensures answer { IfOk result (IsLevelAnswer question.now.aim nets.now.exact nets.now.approx) }
{
    match by_diagrams(alloc, nets, decider, question.aim, LAST_QUESTION_STEPS)? {
        Some(margin) => Ok(margin),
        None => {
            let last = ask_again(alloc, nets, question, spent, progress)?;
            Ok(margin_of(last))
        }
    }
}

/// What the solver answers. Where the conflicts of its first query are spent, diagrams are asked once more,
/// and then the solver again.
pub(crate) fn by_solver<P: Progress>(
    alloc: Global,
    nets: &Compared,
    decider: &mut Decider,
    aim: Constraint,
    progress: &mut P,
) -> Result<Margin, AllocError>
    requires many_inputs { LANE_INPUTS < input_count nets.now.exact }
    requires decider { decider.old ≡ nets.now.exact }
    requires limit { 1 ≤ aim.limit }
    ensures same { decider.new ≡ decider.old }
    ensures answer { IfOk result (IsLevelAnswer aim nets.now.exact nets.now.approx) }
{
    let question = pose(alloc, nets, aim)?;
    let first = ask_once(alloc, nets, &question, progress)?;
    match first {
        Exceed::Spent(spent) => by_last_steps(alloc, nets, decider, &question, spent, progress),
        decided => Ok(margin_of(decided)),
    }
}
