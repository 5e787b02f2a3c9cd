//! What is asked of the solver: a literal of a hashed graph that is true wherever the error of an approximate
//! net exceeds a level.
//!
//! Both nets and the network of the level become one hashed graph over the same inputs: what the nets have in
//! common is one node, and where two outputs are one node the network has a constant there. So mostly little
//! is left of it. Where the approximate net was made by a change from a net that keeps the level, it is asked
//! besides that the changed signal has different values in the two nets: at other input vectors the error is
//! that of the net before.
ghost use Rattle.std.specs.Prelude.{◌≡◌, ◌<◌, ◌≤◌, ◌++◌, length, All, IfOk, IfSome};
ghost use Rattle.semantics.specs.Net.{input_count};
ghost use Rattle.aig_core.specs.Graph.{IsLiteralOf};
ghost use Rattle.aig_core.specs.Grown.{Grows};
ghost use Rattle.bdd_levels.specs.Levels.{IsLevelOf};
ghost use Rattle.graph_questions.specs.Levels.{IsChangeFor, IsGoalOf, IsOverLiteral, IsTrueWhereOver};
ghost use Rattle.graph_questions.specs.Levels.{question_of};
ghost use Rattle.graph_questions.specs.LowPlaces.{AreEnough};

use crate::difference::difference;
use crate::low_places::low_literal;
use aig_core::graph::Aig;
use aig_core::literal::Literal;
use aig_core::nets::{input_literals, output_literals};
use bdd_levels::level::Level;
use net_errors::compared::Compared;
use net_search::judging::Change;
use std::alloc::{AllocError, Global};

/// A graph, and a literal of it.
#[derive(Drop)]
pub(crate) struct Goal {
    pub graph: Aig,
    pub literal: Literal,
}

/// Both lists, one behind the other.
pub(crate) fn joined(
    alloc: Global,
    first: &[Literal],
    second: &[Literal],
) -> Result<Vec<Literal>, AllocError>
    ensures { IfOk result (λ both. both.items ≡ first.now ++ second.now) }
{
    let mut both = first.to_vec(alloc)?;
    both.extend_from_slice(second)?;
    Ok(both)
}

/// The literal that is true where the error of the approximate net exceeds the level.
fn over_literal(
    alloc: Global,
    g: &mut Aig,
    nets: &Compared,
    level: &Level,
    inputs: &[Literal],
) -> Result<Literal, AllocError>
    requires level { IsLevelOf nets.now.exact level.now }
    requires count { length inputs.now ≡ input_count nets.now.exact }
    requires within { All (IsLiteralOf g.old) inputs.now }
    ensures grows { Grows g.old g.new }
    ensures over { IfOk result (IsOverLiteral g.new (question_of nets.now level.now) inputs.now) }
{
    let exact = output_literals(alloc, g, nets.exact(), inputs)?;
    let approx = output_literals(alloc, g, nets.approx(), inputs)?;
    let both = joined(alloc, &exact, &approx)?;
    let over = output_literals(alloc, g, &level.network, &both)?;
    Ok(over[0])
}

/// The literal that is true wherever the error of the approximate net exceeds the level, over all outputs or
/// over so many low places as are enough.
fn beyond_level(
    alloc: Global,
    g: &mut Aig,
    nets: &Compared,
    level: &Level,
    places: Option<u32>,
    inputs: &[Literal],
) -> Result<Literal, AllocError>
    requires level { IsLevelOf nets.now.exact level.now }
    requires places { IfSome places (AreEnough (question_of nets.now level.now)) }
    requires count { length inputs.now ≡ input_count nets.now.exact }
    requires within { All (IsLiteralOf g.old) inputs.now }
    ensures grows { Grows g.old g.new }
    ensures over { IfOk result (IsTrueWhereOver g.new (question_of nets.now level.now) inputs.now) }
{
    match places {
        Some(places) => low_literal(alloc, g, nets, level, places, inputs),
        None => over_literal(alloc, g, nets, level, inputs),
    }
}

/// The literal that is true wherever the error of the approximate net exceeds the level: with a change, only
/// where the change makes a difference.
fn goal_literal(
    alloc: Global,
    g: &mut Aig,
    nets: &Compared,
    change: Option<&Change>,
    level: &Level,
    places: Option<u32>,
    inputs: &[Literal],
) -> Result<Literal, AllocError>
    requires level { IsLevelOf nets.now.exact level.now }
    requires change { IfSome change (λ c. IsChangeFor (question_of nets.now level.now) c.now) }
    requires places { IfSome places (AreEnough (question_of nets.now level.now)) }
    requires count { length inputs.now ≡ input_count nets.now.exact }
    requires within { All (IsLiteralOf g.old) inputs.now }
    ensures grows { Grows g.old g.new }
    ensures over { IfOk result (IsTrueWhereOver g.new (question_of nets.now level.now) inputs.now) }
{
    let over = beyond_level(alloc, g, nets, level, places, inputs)?;
    match change {
        None => Ok(over),
        Some(change) => {
            let differs = difference(alloc, g, change, nets.approx(), inputs)?;
            g.and(over, differs)
        }
    }
}

/// The graph of both nets and of the network of the level, and the literal that is asked about. `places` says
/// how many low places of the outputs are enough, where that is known.
pub(crate) fn goal_of(
    alloc: Global,
    nets: &Compared,
    change: Option<&Change>,
    level: &Level,
    places: Option<u32>,
) -> Result<Goal, AllocError>
    requires level { IsLevelOf nets.now.exact level.now }
    requires change { IfSome change (λ c. IsChangeFor (question_of nets.now level.now) c.now) }
    requires places { IfSome places (AreEnough (question_of nets.now level.now)) }
    ensures { IfOk result
        (λ goal. IsGoalOf goal.graph (question_of nets.now level.now) goal.literal) }
{
    let mut graph = Aig::new(alloc, nets.exact().inputs());
    let inputs = input_literals(alloc, &graph)?;
    let literal = goal_literal(alloc, &mut graph, nets, change, level, places, &inputs)?;
    graph.values();
    Ok(Goal { graph, literal })
}
