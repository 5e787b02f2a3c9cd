//! The literals of a net's signals, and the graph of a net.
ghost use Rattle.std.specs.Prelude.{◌≡◌, ◌≤◌, ℕ, ◌<◌, length, map, slice_index_or, All, IfOk};
ghost use Rattle.semantics.specs.Net.{input_count, signal_count};
ghost use Rattle.aig_core.specs.Graph.{GraphValue, IsLiteralOf};
ghost use Rattle.aig_core.specs.Grown.{Grows, IsInputOf};
ghost use Rattle.aig_core.specs.Signals.{AreOutputsOver, AreSignalsOver, IsGraphOf};

use crate::graph::Aig;
use crate::literal::{Literal, constant};
use crate::tables::table_literal;
use net_core::items::Signal;
use net_core::net::Net;
use std::alloc::{AllocError, Global};

/// A graph, and the literal of each signal.
#[derive(Drop)]
pub struct NetGraph {
    pub graph: Aig,
    pub literals: Vec<Literal>,
}

/// The literals of a graph's inputs.
pub fn input_literals(alloc: Global, g: &Aig) -> Result<Vec<Literal>, AllocError>
    ensures length { IfOk result (λ inputs. length inputs.items ≡ g.now.inputs) }
    ensures within { IfOk result (λ inputs. All (IsLiteralOf g.now) inputs.items) }
    ensures inputs { IfOk result
        (λ inputs. (i : ℕ) → i < g.now.inputs → IsInputOf g.now i (slice_index_or inputs.items i 0)) }
{
    let mut inputs = vec![in alloc; constant(false); g.inputs() as usize]?;
    for i in 0..g.inputs() {
        inputs[i as usize] = g.input(i);
    }
    Ok(inputs)
}

/// The inputs' literals, in a list with room for `room` signals.
fn with_room(alloc: Global, inputs: &[Literal], room: usize) -> Result<Vec<Literal>, AllocError>
    requires { length inputs.now ≤ room }
    ensures length { IfOk result (λ signals. length signals.items ≡ room) }
    ensures within { IfOk result (λ signals. (g : GraphValue) → All (IsLiteralOf g) inputs.now
        → All (IsLiteralOf g) signals.items) }
    ensures same { IfOk result (λ signals. (s : ℕ) → s < length inputs.now
        → slice_index_or signals.items s 0 ≡ slice_index_or inputs.now s 0) }
{
    let mut signals = vec![in alloc; constant(false); room]?;
    for (i, literal) in inputs.iter().enumerate() {
        signals[i] = *literal;
    }
    Ok(signals)
}

/// The literal of each signal of a net, where its inputs have these literals, in time about in proportion to
/// the net's size.
pub fn signal_literals(
    alloc: Global,
    g: &mut Aig,
    net: &Net,
    inputs: &[Literal],
) -> Result<Vec<Literal>, AllocError>
    requires count { length inputs.now ≡ input_count net.now }
    requires within { All (IsLiteralOf g.old) inputs.now }
    ensures grows { Grows g.old g.new }
    ensures length { IfOk result (λ signals. length signals.items ≡ signal_count net.now) }
    ensures signals { IfOk result
        (λ signals. AreSignalsOver g.new net.now.tables inputs.now signals.items) }
{
    let mut signals = with_room(alloc, inputs, net.signals() as usize)?;
    for t in net.order() {
        let literal = table_literal(g, net.table(*t), &signals)?;
        signals[inputs.len() + *t as usize] = literal;
    }
    Ok(signals)
}

/// The literals of these signals.
fn literals_of(
    alloc: Global,
    signals: &[Literal],
    some: &[Signal],
) -> Result<Vec<Literal>, AllocError>
    requires { All (λ s. s < length signals.now) some.now }
    ensures { IfOk result (λ ls. ls.items ≡ map (λ s. slice_index_or signals.now s 0) some.now) }
{
    let mut literals = Vec::new(alloc);
    for s in some {
        literals.push(signals[*s as usize])?;
    }
    Ok(literals)
}

/// The literals of a net's outputs, where its inputs have these literals.
pub fn output_literals(
    alloc: Global,
    g: &mut Aig,
    net: &Net,
    inputs: &[Literal],
) -> Result<Vec<Literal>, AllocError>
    requires count { length inputs.now ≡ input_count net.now }
    requires within { All (IsLiteralOf g.old) inputs.now }
    ensures grows { Grows g.old g.new }
    ensures outputs { IfOk result (λ ls. AreOutputsOver g.new net.now inputs.now ls.items) }
{
    net.see_sound();
    let signals = signal_literals(alloc, g, net, inputs)?;
    Ok(literals_of(alloc, &signals, net.output_signals())?)
}

/// The graph of a net, in time about in proportion to its size.
pub fn from_net(alloc: Global, net: &Net) -> Result<NetGraph, AllocError>
    ensures { IfOk result (λ made. IsGraphOf net.now made.graph made.literals.items) }
{
    net.see_sound();
    let mut graph = Aig::new(alloc, net.inputs());
    let inputs = input_literals(alloc, &graph)?;
    let literals = signal_literals(alloc, &mut graph, net, &inputs)?;
    graph.values();
    Ok(NetGraph { graph, literals })
}
