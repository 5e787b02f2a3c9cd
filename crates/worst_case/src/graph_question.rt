//! Whether the error exceeds a level, asked over a graph of both nets and of the network of the level,
//! without a log.
//!
//! The exact and the approximate net have most of their tables in common: in the hashed graph of both what is
//! equal is one node, and much falls. The network of the level is that of the diagrams, which subtracts once:
//! where two outputs are one node it is mostly constant. Where the approximate net was made by a change from
//! a net that keeps the bound, only the input vectors are asked about at which the change makes a difference.
//! What is left open here is asked again over the joint net's own formula, since a query that was spent is
//! shown by that.
ghost use Rattle.std.specs.Prelude.{◌≡◌, ◌≤◌, IfOk, IfSome};
ghost use Rattle.level_answers.specs.Levels.{IsSureAnswer};
ghost use Rattle.graph_questions.specs.Gaps.{IsGapOf};
ghost use Rattle.graph_questions.specs.Levels.{IsChangeFor, asked_of};

use crate::margin::decided_margin;
use bdd_levels::level::Level;
use graph_questions::gap::Gap;
use graph_questions::levels::{decide, decide_along};
use level_answers::margin::Margin;
use net_errors::compared::Compared;
use net_search::judging::Change;
use progress::progress::Progress;
use proof_semantics::constraint::Constraint;
use std::alloc::{AllocError, Global};

/// The answer over the graph, where the solver finds one within the limit: first, along a chain, by the gap
/// that is kept.
pub(crate) fn by_graph<P: Progress>(
    alloc: Global,
    nets: &Compared,
    change: Option<&Change>,
    kept: &mut Option<Gap>,
    aim: Constraint,
    progress: &mut P,
) -> Result<Option<Margin>, AllocError>
    requires limit { 1 ≤ aim.limit }
    requires kept { IfSome kept.old (IsGapOf nets.now.exact) }
    requires change { IfSome change (λ c. IsChangeFor (asked_of nets.now aim) c.now) }
    ensures kept { IfSome kept.new (IsGapOf nets.now.exact) }
    ensures answer { IfOk result
        (λ found. IfSome found (IsSureAnswer aim nets.now.exact nets.now.approx)) }
{
    if let Some(change) = change {
        let decision = decide_along(alloc, nets, change, kept, aim, progress)?;
        if let Some(margin) = decided_margin(alloc, nets, aim, decision)? {
            return Ok(Some(margin));
        }
    }
    let level = Level::new(alloc, nets.exact(), aim.metric, aim.bound)?;
    let decision = decide(alloc, nets, change, &level, aim.limit, progress)?;
    decided_margin(alloc, nets, aim, decision)
}
