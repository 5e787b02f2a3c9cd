//! The question whether some input vector makes a literal of a graph true.
//!
//! The clauses of the gates on which the literal depends go to the solver. A question of few conflicts ends
//! in the search that forgets nothing; behind it comes the one that forgets, which is quicker where clauses
//! are many. No log is kept.
ghost use Rattle.std.specs.Prelude.{◌≡◌, ◌≤◌, IfOk};
ghost use Rattle.aig_core.specs.Graph.{IsLiteralOf};
ghost use Rattle.graph_questions.specs.GraphClauses.{IsAnsweredOf, answer_of};

use crate::clauses::formula_of;
use crate::cone::cone_of;
use crate::guide::guide_of;
use aig_core::graph::Aig;
use aig_core::literal::Literal;
use cdcl_core::answer::Answer;
use cdcl_core::forgetting::solve_forgetting;
use cdcl_core::outcome::Outcome;
use cdcl_core::solve::solve_guided;
use net_parts::items::Items;
use progress::progress::Progress;
use std::alloc::{AllocError, Global};

/// The conflicts of the search that forgets nothing: as many as the first round of the one that forgets.
/// `bench/SOLVER.md` has whole runs of a Sobel filter of 64 inputs with these and with ten times as many.
const PLAIN_CONFLICTS: u64 = 2_000;

/// What a search that forgets came to, as an answer.
fn answer_of(outcome: Outcome) -> Answer
    ensures { result ≡ answer_of outcome }
{
    match outcome {
        Outcome::Model(bits) => Answer::Model(bits),
        Outcome::Refuted(log) => Answer::Refuted(log),
        Outcome::Open(log) => Answer::Spent(log),
    }
}

/// What the solver answers over the cone of a literal: a model, that there is none, or neither where the
/// search had `PLAIN_CONFLICTS` conflicts, or `limit` where that is less, and behind them `limit` more.
pub(crate) fn ask_solver<P: Progress>(
    alloc: Global,
    graph: &Aig,
    goal: Literal,
    limit: u64,
    progress: &mut P,
) -> Result<Answer, AllocError>
    requires limit { 1 ≤ limit }
    requires goal { IsLiteralOf graph.now goal }
    ensures { IfOk result (IsAnsweredOf graph.now goal) }
{
    let cone = cone_of(alloc, graph, goal)?;
    let formula = formula_of(alloc, graph, &cone, goal)?;
    let guide = guide_of(alloc, graph, &cone)?;
    let none = Items::new(alloc);
    progress.asked();
    let few = limit.min(PLAIN_CONFLICTS);
    let first = match solve_guided(alloc, &formula, &none, &guide, few, progress)? {
        Answer::Spent(log) => log,
        decided => return Ok(decided),
    };
    let outcome = solve_forgetting(alloc, &formula, first, &guide, limit, progress)?;
    Ok(answer_of(outcome))
}
