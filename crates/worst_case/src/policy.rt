//! By which means, and in which order, a level is decided where no log is asked for.
//!
//! With at most sixteen inputs every vector is tried in lanes: this always ends, and takes less than a
//! second. With more inputs, some fixed vectors are tried first, which break most moves that some vector
//! breaks. Then diagrams are asked, where an order of the inputs was found in which the diagrams of the exact
//! net are small: adders, filters, medians and sums of differences take milliseconds a question with
//! diagrams. A question that takes more than `QUESTION_STEPS` steps is decided by every vector, where there
//! are at most `MOST_TRIED_INPUTS` inputs: the products of multipliers have no small diagrams, and take the
//! solver minutes. With still more inputs it goes to the solver, which is quick where errors may be large:
//! first over a hashed graph of both nets, at those input vectors alone at which the last change makes a
//! difference, and where that leaves it open over the joint net's clauses. Where the solver's conflicts are
//! spent too, the diagrams get as many steps as their nodes allow (`LAST_QUESTION_STEPS`), and then the
//! solver gets further queries, before the question counts as open. What a budget leaves open is never taken
//! for an answer.
ghost use Rattle.std.specs.Prelude.{◌≡◌, ◌<◌, ◌≤◌, IfOk, IfSome};
ghost use Rattle.semantics.specs.Net.{input_count};
ghost use Rattle.semantics.specs.Error.{IsWithin};
ghost use Rattle.level_answers.specs.Levels.{IsLevelAnswer, IsSureAnswer};
ghost use Rattle.net_search.specs.Judging.{IsChange};
ghost use Rattle.graph_questions.specs.Levels.{IsChangeFor, asked_of};
ghost use Rattle.worst_case.specs.Levels.{IsAnsweredUpTo};

use crate::judge::Judge;
use crate::options::MOST_TRIED_INPUTS;
use level_answers::margin::Margin;
use net_errors::compared::Compared;
use net_search::judging::Change;
use progress::progress::Progress;
use proof_semantics::constraint::Constraint;
use std::alloc::{AllocError, Global};

/// The answer without the solver: by the known vectors, by diagrams, or by every vector.
fn without_solver(
    alloc: Global,
    nets: &Compared,
    judge: &mut Judge,
    aim: Constraint,
) -> Result<Option<Margin>, AllocError>
    requires judge { judge.old ≡ nets.now.exact }
    ensures same { judge.new ≡ judge.old }
    ensures answer { IfOk result (IsAnsweredUpTo MOST_TRIED_INPUTS aim nets.now.exact nets.now.approx) }
{
    if let Some(margin) = judge.by_known(alloc, nets, aim)? {
        return Ok(Some(margin));
    }
    if let Some(margin) = judge.by_diagrams(alloc, nets, aim)? {
        return Ok(Some(margin));
    }
    judge.by_every_vector(alloc, nets, aim)
}

/// The answer by climbing and by the solver, in their order.
fn with_solver<P: Progress>(
    alloc: Global,
    nets: &Compared,
    change: Option<&Change>,
    judge: &mut Judge,
    aim: Constraint,
    progress: &mut P,
) -> Result<Margin, AllocError>
    requires many_inputs { MOST_TRIED_INPUTS < input_count nets.now.exact }
    requires judge { judge.old ≡ nets.now.exact }
    requires limit { 1 ≤ aim.limit }
    requires change { IfSome change (λ c. IsChangeFor (asked_of nets.now aim) c.now) }
    ensures same { judge.new ≡ judge.old }
    ensures answer { IfOk result (IsLevelAnswer aim nets.now.exact nets.now.approx) }
{
    if let Some(margin) = judge.by_climbing(alloc, nets, aim)? {
        return Ok(margin);
    }
    match judge.by_graph(alloc, nets, change, aim, progress)? {
        Some(margin) => Ok(margin),
        None => judge.by_solver(alloc, nets, aim, progress),
    }
}

/// The answer by all means, in their order.
fn by_all<P: Progress>(
    alloc: Global,
    nets: &Compared,
    change: Option<&Change>,
    judge: &mut Judge,
    aim: Constraint,
    progress: &mut P,
) -> Result<Margin, AllocError>
    requires judge { judge.old ≡ nets.now.exact }
    requires limit { 1 ≤ aim.limit }
    requires change { IfSome change (λ c. IsChangeFor (asked_of nets.now aim) c.now) }
    ensures same { judge.new ≡ judge.old }
    ensures answer { IfOk result (IsLevelAnswer aim nets.now.exact nets.now.approx) }
    ensures sure { IfOk result (λ margin. input_count nets.now.exact ≤ MOST_TRIED_INPUTS
        → IsSureAnswer aim nets.now.exact nets.now.approx margin) }
{
    if let Some(margin) = without_solver(alloc, nets, judge, aim)? {
        return Ok(margin);
    }
    let margin = with_solver(alloc, nets, change, judge, aim, progress)?;
    judge.keep(alloc, &margin)?;
    Ok(margin)
}

/// An input whose error exceeds the bound, or that there is none. With at most 24 inputs nothing is spent.
/// With more inputs the solver is asked where neither the known vectors nor diagrams tell.
pub fn within_level<P: Progress>(
    alloc: Global,
    nets: &Compared,
    judge: &mut Judge,
    aim: Constraint,
    progress: &mut P,
) -> Result<Margin, AllocError>
    requires judge { judge.old ≡ nets.now.exact }
    requires limit { 1 ≤ aim.limit }
    ensures same { judge.new ≡ judge.old }
    ensures answer { IfOk result (IsLevelAnswer aim nets.now.exact nets.now.approx) }
    ensures sure { IfOk result (λ margin. input_count nets.now.exact ≤ MOST_TRIED_INPUTS
        → IsSureAnswer aim nets.now.exact nets.now.approx margin) }
{
    by_all(alloc, nets, None, judge, aim, progress)
}

/// Whether the error of a net stays within the bound, as [`within_level`] says, where the net was made by a
/// change from a net that keeps the bound.
pub fn within_level_after<P: Progress>(
    alloc: Global,
    nets: &Compared,
    change: &Change,
    judge: &mut Judge,
    aim: Constraint,
    progress: &mut P,
) -> Result<Margin, AllocError>
    requires judge { judge.old ≡ nets.now.exact }
    requires limit { 1 ≤ aim.limit }
    requires before { IsWithin aim.metric nets.now.exact aim.bound change.now.before.now }
    requires change { IsChange change.now.before.now nets.now.approx change.now.signal }
    ensures same { judge.new ≡ judge.old }
    ensures answer { IfOk result (IsLevelAnswer aim nets.now.exact nets.now.approx) }
    ensures sure { IfOk result (λ margin. input_count nets.now.exact ≤ MOST_TRIED_INPUTS
        → IsSureAnswer aim nets.now.exact nets.now.approx margin) }
{
    by_all(alloc, nets, Some(change), judge, aim, progress)
}
