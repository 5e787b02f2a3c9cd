//! The graph: an arena of nodes, in which no pair of literals stands twice.
ghost use Rattle.std.specs.Prelude.{◌≡◌, ℕ, ◌+◌, ◌*◌, ◌/◌, ◌^◌, ◌<◌, ◌≤◌, [], length, List, Bool, IfOk};
ghost use Rattle.std.specs.Prelude.{OnErr};
ghost use Rattle.aig_core.specs.Graph.{GraphValue, HasOneValue, IsGraph, IsLiteralOf, node_at, node_count};
ghost use Rattle.aig_core.specs.Grown.{AddsAtMost, Grows, IsConjunctionOf, IsDisjunctionOf, IsInputOf};
ghost use Rattle.aig_core.specs.Grown.{gate_of, opposite_of};

use crate::folding::folded;
use crate::gate::{Gate, Node};
use crate::literal::{Literal, opposite};
use indexmap::IndexSet;
use std::alloc::{AllocError, Global};
use std::marker::Model;

/// The most nodes of a graph; so each literal fits its type.
const MOST_NODES: usize = 1 << 31;

/// Nodes that are added and never changed: the constant false, the inputs, and the gates, each behind the
/// nodes that it reads.
#[derive(Drop)]
pub struct Aig {
    inputs: u32,
    gates: IndexSet<Gate>,
}

impl Model for Aig {
    ghost use Rattle.std.specs.Prelude.{◌^◌, ◌≤◌};
    ghost use Rattle.aig_core.specs.Graph.{GraphValue, IsGraph, node_count};

    ghost Value = { GraphValue };

    ghost view = { λ g. record { inputs = g.inputs; gates = g.gates.keys } };

    ghost invariant = { λ g. IsGraph (record { inputs = g.inputs; gates = g.gates.keys })
        × (node_count (record { inputs = g.inputs; gates = g.gates.keys }) ≤ 2 ^ 31) };
}

impl Aig {
    /// The graph of the constant and `inputs` inputs. The call takes no memory.
    pub fn new(alloc: Global, inputs: u32) -> Aig
        requires { inputs < 2 ^ 31 }
        ensures { result ≡ record { inputs = inputs; gates = [] } }
    {
        Aig {
            inputs,
            gates: IndexSet::new(alloc),
        }
    }

    /// Shows that this is a graph, which its type holds.
    pub fn is_graph(&self)
        ensures graph { IsGraph self.now }
        ensures few { node_count self.now ≤ 2 ^ 31 }
    {
        let _gates = &self.gates;
    }

    /// Shows that each node has one value at each input vector.
    pub fn values(&self)
        ensures { (x : List Bool) → HasOneValue self.now x }
    {
        self.is_graph();
    }

    /// How many inputs there are.
    pub fn inputs(&self) -> u32
        ensures { result ≡ self.now.inputs }
    {
        self.inputs
    }

    /// How many nodes there are, with the constant.
    pub fn nodes(&self) -> u32
        ensures { result ≡ node_count self.now }
    {
        1 + self.inputs + self.gates.len() as u32
    }

    /// The gates in their order: gate i is node `1 + inputs() + i`.
    pub fn gates(&self) -> &[Gate]
        ensures gates { result.now ≡ self.now.gates }
        ensures graph { IsGraph self.now }
        ensures few { node_count self.now ≤ 2 ^ 31 }
    {
        self.gates.as_slice()
    }

    /// What node n is.
    pub fn node(&self, n: u32) -> Node
        requires { n < node_count self.now }
        ensures { result ≡ node_at self.now n }
    {
        if n == 0 {
            return Node::False;
        }
        if n <= self.inputs {
            return Node::Input(n - 1);
        }
        let gate = self.gates.as_slice()[(n - 1 - self.inputs) as usize];
        Node::And(gate.left, gate.right)
    }

    /// The literal of input i, from 0.
    pub fn input(&self, i: u32) -> Literal
        requires { i < self.now.inputs }
        ensures { IsInputOf self.now i result }
    {
        self.is_graph();
        2 * (1 + i)
    }

    /// A literal whose value is the conjunction of two literals. A node is made only where no node has this
    /// value already. A node past the most that a graph may have counts as out of memory.
    pub fn and(&mut self, a: Literal, b: Literal) -> Result<Literal, AllocError>
        requires a { IsLiteralOf self.old a }
        requires b { IsLiteralOf self.old b }
        ensures grows { Grows self.old self.new }
        ensures one { AddsAtMost self.old (gate_of a b) self.new }
        ensures ok { IfOk result (IsConjunctionOf self.new a b) }
        ensures err { OnErr result (self.new ≡ self.old) }
    {
        if a <= b {
            self.and_sorted(a, b)
        } else {
            self.and_sorted(b, a)
        }
    }

    /// A literal whose value is the disjunction of two literals.
    pub fn or(&mut self, a: Literal, b: Literal) -> Result<Literal, AllocError>
        requires a { IsLiteralOf self.old a }
        requires b { IsLiteralOf self.old b }
        ensures grows { Grows self.old self.new }
        ensures one { AddsAtMost self.old (gate_of (opposite_of a) (opposite_of b)) self.new }
        ensures ok { IfOk result (IsDisjunctionOf self.new a b) }
        ensures err { OnErr result (self.new ≡ self.old) }
    {
        let none = self.and(opposite(a), opposite(b))?;
        Ok(opposite(none))
    }

    /// The conjunction of two literals, of which the lesser comes first.
    fn and_sorted(&mut self, low: Literal, high: Literal) -> Result<Literal, AllocError>
        requires sorted { low ≤ high }
        requires high { IsLiteralOf self.old high }
        ensures grows { Grows self.old self.new }
        ensures one { AddsAtMost self.old (record { left = low; right = high }) self.new }
        ensures ok { IfOk result (IsConjunctionOf self.new low high) }
        ensures err { OnErr result (self.new ≡ self.old) }
    {
        self.is_graph();
        match folded(low, high) {
            Some(known) => Ok(known),
            None => self.gate(Gate {
                left: low,
                right: high,
            }),
        }
    }

    /// The literal of a gate; the gate is made where no gate reads this pair.
    fn gate(&mut self, gate: Gate) -> Result<Literal, AllocError>
        requires varying { 0 < gate.left / 2 }
        requires apart { gate.left / 2 < gate.right / 2 }
        requires within { IsLiteralOf self.old gate.right }
        ensures grows { Grows self.old self.new }
        ensures one { AddsAtMost self.old gate self.new }
        ensures ok { IfOk result (IsConjunctionOf self.new gate.left gate.right) }
        ensures err { OnErr result (self.new ≡ self.old) }
    {
        if 1 + self.inputs as usize + self.gates.len() >= MOST_NODES {
            return Err(AllocError);
        }
        let (at, _) = self.gates.insert_full(gate)?;
        Ok(2 * (1 + self.inputs + at as u32))
    }
}
