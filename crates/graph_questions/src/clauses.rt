//! The clauses of a graph's cone: three for each gate, one that the constant is false, and one that a literal
//! is true. Variable n + 1 belongs to node n. Source: Tseitin's encoding.
//!
//! That an input vector at which the literal is true satisfies the clauses is all that is needed of them:
//! then a formula that is refuted shows that there is no such vector, whichever gates have their clauses.
ghost use Rattle.std.specs.Prelude.{◌≡◌, ◌+◌, ◌/◌, ◌<◌, ◌^◌, true, false, [], ◌∷◌, ◌++◌, length, IfOk, OnOk};
ghost use Rattle.aig_core.specs.Graph.{IsLiteralOf, node_count, gate_node, gate_at};
ghost use Rattle.proof_semantics.specs.Clauses.{AreClausesOf};
ghost use Rattle.proof_semantics.specs.NetClauses.{literal_at};
ghost use Rattle.proof_parts.specs.Literals.{IsLiteral};
ghost use Rattle.graph_questions.specs.GraphClauses.{where_is, gate_clauses, AddsGate, StayTrue};
ghost use Rattle.graph_questions.specs.GraphClauses.{StayWithin, AreNeededFor};

use crate::cone::is_within;
use aig_core::gate::Gate;
use aig_core::graph::Aig;
use aig_core::literal::{Literal as Edge, constant, is_negative, node_of};
use net_parts::items::Items;
use proof_parts::clause::{ClauseList, Lits};
use proof_parts::cnf::Cnf;
use proof_parts::literal::{Literal, literal_at};
use std::alloc::{AllocError, Global};

/// The number of nodes below which each node has a variable.
const ROOM: u32 = (1 << 31) - 1;

/// The literal of the formula that is true where a literal of the graph has this value.
fn where_is(edge: Edge, value: bool) -> Literal
    requires { edge / 2 + 1 < 2 ^ 31 }
    ensures value { result ≡ where_is edge value }
    ensures formed { IsLiteral result }
{
    let sign = if is_negative(edge) { !value } else { value };
    literal_at(node_of(edge), sign)
}

/// Adds the clause that a literal of the graph is true.
fn push_true(alloc: Global, clauses: &mut ClauseList, edge: Edge) -> Result<(), AllocError>
    requires { edge / 2 + 1 < 2 ^ 31 }
    ensures { OnOk result (clauses.new ≡ clauses.old ++ (where_is edge true ∷ []) ∷ []) }
{
    let mut clause = Lits::new(alloc);
    clause.push(where_is(edge, true))?;
    clauses.push(clause)
}

/// Adds the clause that the node `node` is false or a literal of the graph is true.
fn push_implied(
    alloc: Global,
    clauses: &mut ClauseList,
    node: u32,
    edge: Edge,
) -> Result<(), AllocError>
    requires node { node + 1 < 2 ^ 31 }
    requires edge { edge / 2 + 1 < 2 ^ 31 }
    ensures { OnOk result
        (clauses.new ≡ clauses.old ++ (literal_at node false ∷ where_is edge true ∷ []) ∷ []) }
{
    let mut clause = Lits::new(alloc);
    clause.push(literal_at(node, false))?;
    clause.push(where_is(edge, true))?;
    clauses.push(clause)
}

/// Adds the clause that the node `node` is true or one of a gate's literals is false.
fn push_converse(
    alloc: Global,
    clauses: &mut ClauseList,
    node: u32,
    gate: Gate,
) -> Result<(), AllocError>
    requires node { node + 1 < 2 ^ 31 }
    requires left { gate.left / 2 + 1 < 2 ^ 31 }
    requires right { gate.right / 2 + 1 < 2 ^ 31 }
    ensures { OnOk result (clauses.new ≡ clauses.old
        ++ (literal_at node true ∷ where_is gate.left false ∷ where_is gate.right false ∷ []) ∷ []) }
{
    let mut clause = Lits::new(alloc);
    clause.push(literal_at(node, true))?;
    clause.push(where_is(gate.left, false))?;
    clause.push(where_is(gate.right, false))?;
    clauses.push(clause)
}

/// Adds the clauses by which the node `node` is the conjunction of a gate's two literals.
fn push_gate(
    alloc: Global,
    clauses: &mut ClauseList,
    node: u32,
    gate: Gate,
) -> Result<(), AllocError>
    requires node { node + 1 < 2 ^ 31 }
    requires left { gate.left / 2 + 1 < 2 ^ 31 }
    requires right { gate.right / 2 + 1 < 2 ^ 31 }
    ensures { OnOk result (clauses.new ≡ clauses.old ++ gate_clauses node gate) }
{
    push_implied(alloc, clauses, node, gate.left)?;
    push_implied(alloc, clauses, node, gate.right)?;
    push_converse(alloc, clauses, node, gate)
}

/// Adds the clauses of gate i, where its node is in the cone.
fn push_within(
    alloc: Global,
    clauses: &mut ClauseList,
    graph: &Aig,
    cone: &[bool],
    i: u32,
) -> Result<(), AllocError>
    requires few { node_count graph.now < 2 ^ 31 }
    requires gate { i < length graph.now.gates }
    ensures { OnOk result
        (AddsGate clauses.old (gate_node graph.now i) (gate_at graph.now i) clauses.new) }
{
    let node = graph.inputs() + 1 + i;
    if !is_within(cone, node as usize) {
        return Ok(());
    }
    let gate = graph.gates()[i as usize];
    push_gate(alloc, clauses, node, gate)
}

/// Adds the clauses of the gates of the cone.
fn push_gates(
    alloc: Global,
    clauses: &mut ClauseList,
    graph: &Aig,
    cone: &[bool],
) -> Result<(), AllocError>
    requires { node_count graph.now < 2 ^ 31 }
    ensures true_at { OnOk result (StayTrue graph.now clauses.old clauses.new) }
    ensures within { OnOk result (StayWithin graph.now clauses.old clauses.new) }
{
    graph.values();
    graph.is_graph();
    for i in 0..graph.gates().len() as u32 {
        push_within(alloc, clauses, graph, cone, i)?;
    }
    Ok(())
}

/// The clauses that the constant true is true, that the gates of the cone are conjunctions, and that a
/// literal is true.
fn clauses_of(
    alloc: Global,
    graph: &Aig,
    cone: &[bool],
    goal: Edge,
) -> Result<ClauseList, AllocError>
    requires few { node_count graph.now < 2 ^ 31 }
    requires goal { IsLiteralOf graph.now goal }
    ensures needed { IfOk result (λ clauses. AreNeededFor graph.now goal clauses) }
    ensures within { IfOk result (λ clauses. AreClausesOf (node_count graph.now) clauses) }
{
    graph.values();
    let mut clauses = Items::new(alloc);
    push_true(alloc, &mut clauses, constant(true))?;
    push_gates(alloc, &mut clauses, graph, cone)?;
    push_true(alloc, &mut clauses, goal)?;
    Ok(clauses)
}

/// The formula that a literal is true, over the gates of the cone. A graph of 2^31 nodes counts as want of
/// memory.
pub(crate) fn formula_of(
    alloc: Global,
    graph: &Aig,
    cone: &[bool],
    goal: Edge,
) -> Result<Cnf, AllocError>
    requires { IsLiteralOf graph.now goal }
    ensures needed { IfOk result (λ f. AreNeededFor graph.now goal f.clauses) }
    ensures variables { IfOk result (λ f. f.variables ≡ node_count graph.now) }
{
    let nodes = graph.nodes();
    if nodes > ROOM {
        return Err(AllocError);
    }
    let clauses = clauses_of(alloc, graph, cone, goal)?;
    Ok(Cnf::new(nodes, clauses))
}
