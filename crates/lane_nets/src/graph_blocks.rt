//! The values of a graph's nodes, and the outputs of its net, in blocks of 512 patterns.
ghost use Rattle.std.specs.Prelude.{◌≡◌, ◌⊎◌, ◌*◌, ◌<◌, ◌≤◌, ℕ, length, slice_index, IfOk};
ghost use Rattle.semantics.specs.Net.{input_count};
ghost use Rattle.lane_bits.specs.Rows.{word_count};
ghost use Rattle.aig_core.specs.Graph.{literal_value, node_count};
ghost use Rattle.aig_core.specs.Signals.{IsGraphOf};
ghost use Rattle.lane_nets.specs.Words.{values_at};
ghost use Rattle.lane_nets.specs.Wide.{lane_words, AreWideOutputs};
ghost use Rattle.lane_nets.specs.Schedules.{IsSameNode, IsSchedule, IsSettled};
ghost use Rattle.lane_nets.specs.Graphs.{IsGraphBlock, IsWalkOf};
ghost use Rattle.lane_nets.specs.Changes.{AreKeptInputs, HasInputBlock};

use crate::changes::{NextBlock, is_marked};
use crate::graph_words::{eval_order, literal_wide};
use crate::schedule::{Schedule, scheduled};
use crate::wide_blocks::wide_at;
use crate::wide_words::{are_equal, equal_words};
use aig_core::literal::Literal;
use aig_core::nets::{NetGraph, from_net};
use lane_bits::patterns::Patterns;
use net_core::net::Net;
use std::alloc::{AllocError, Global};
use std::simd::u64x8;

/// The graph of a net, with a schedule for a set of patterns.
#[derive(Drop)]
pub struct GraphWalk {
    pub made: NetGraph,
    pub schedule: Schedule,
}

/// The lesser one of `from` and of the place of the first entry that reads a node, where the node's words
/// change; else `from`.
fn first_changed(from: usize, first: usize, old: u64x8, new: u64x8) -> usize
    ensures most { result ≤ from }
    ensures changed { ((j : ℕ) → j < 8 → slice_index new j ≡ slice_index old j) ⊎ (result ≤ first) }
{
    if are_equal(old, new) {
        from
    } else {
        from.min(first)
    }
}

/// Sets the words of the inputs that are marked to those of the next wide block, and gives the place of the
/// first entry that reads one that changed.
fn change_inputs(next: &NextBlock, firsts: &[usize], wides: &mut [u64x8]) -> usize
    requires room { next.now.patterns.now.inputs < length wides.old }
    requires firsts { length firsts.now ≡ length wides.old }
    requires within { 8 * next.now.q ≤ word_count (length next.now.patterns.now.vectors) }
    requires kept { AreKeptInputs next.now.patterns.now next.now.q next.now.marks wides.old }
    ensures inputs { HasInputBlock next.now.patterns.now next.now.q wides.new }
    ensures changed { (n : ℕ) → IsSameNode wides.old wides.new n ⊎ (result ≤ slice_index firsts.now n) }
    ensures constant { IsSameNode wides.old wides.new 0 }
    ensures gates { (n : ℕ) → next.now.patterns.now.inputs < n → IsSameNode wides.old wides.new n }
{
    let mut from = usize::MAX;
    for s in 0..next.patterns.inputs() {
        if is_marked(next.marks, s) {
            let node = 1 + s as usize;
            let wide = wide_at(next.patterns.row(s), 8 * next.q);
            from = first_changed(from, firsts[node], wides[node], wide);
            wides[node] = wide;
        }
    }
    from
}

/// Sets `wides` from the values of a graph's nodes in another wide block to those in the next one.
fn set_graph_block(walk: &GraphWalk, next: &NextBlock, wides: &mut [u64x8])
    requires schedule { IsSchedule walk.now.made.graph walk.now.schedule }
    requires inputs { next.now.patterns.now.inputs ≡ walk.now.made.graph.inputs }
    requires within { 8 * next.now.q ≤ word_count (length next.now.patterns.now.vectors) }
    requires room { length wides.old ≡ node_count walk.now.made.graph }
    requires settled { IsSettled walk.now.schedule.order.items wides.old }
    requires kept { AreKeptInputs next.now.patterns.now next.now.q next.now.marks wides.old }
    ensures settled { IsSettled walk.now.schedule.order.items wides.new }
    ensures inputs { HasInputBlock next.now.patterns.now next.now.q wides.new }
    ensures block { IsGraphBlock walk.now.made.graph next.now.patterns.now.vectors next.now.q wides.new }
{
    walk.made.graph.is_graph();
    let from = change_inputs(next, &walk.schedule.firsts, wides);
    eval_order(&walk.schedule.order, from, wides);
}

/// Sets `outputs` to the values of the outputs' literals.
fn set_literals(net: &Net, literals: &[Literal], wides: &[u64x8], outputs: &mut [u64x8])
    requires literals { (i : ℕ) → i < length net.now.outputs
        → slice_index net.now.outputs i < length literals.now }
    requires wides { (i : ℕ) → i < length net.now.outputs
        → slice_index literals.now (slice_index net.now.outputs i) < 2 * length wides.now }
    requires room { length outputs.old ≡ length net.now.outputs }
    ensures { (j b i : ℕ) → j < 8 → b < 64 → i < length net.now.outputs
        → values_at (lane_words outputs.new j) b i
        ≡ literal_value (values_at (lane_words wides.now j) b)
        (slice_index literals.now (slice_index net.now.outputs i)) }
{
    for i in 0..net.outputs() {
        let literal = literals[net.output(i) as usize];
        outputs[i as usize] = literal_wide(literal, wides);
    }
}

/// Sets `outputs` to a net's outputs in the next wide block, by the values of its graph's nodes. Those of
/// another wide block stand in `wides`, and what changes is computed there.
pub(crate) fn set_graph_outputs(
    net: &Net,
    walk: &GraphWalk,
    next: &NextBlock,
    wides: &mut [u64x8],
    outputs: &mut [u64x8],
)
    requires walk { IsWalkOf net.now walk.now wides.old }
    requires inputs { next.now.patterns.now.inputs ≡ input_count net.now }
    requires within { 8 * next.now.q ≤ word_count (length next.now.patterns.now.vectors) }
    requires room { length outputs.old ≡ length net.now.outputs }
    requires kept { AreKeptInputs next.now.patterns.now next.now.q next.now.marks wides.old }
    ensures walk { IsWalkOf net.now walk.now wides.new }
    ensures inputs { HasInputBlock next.now.patterns.now next.now.q wides.new }
    ensures outputs { AreWideOutputs net.now next.now.patterns.now.vectors next.now.q outputs.new }
{
    net.see_sound();
    set_graph_block(walk, next, wides);
    set_literals(net, &walk.made.literals, wides, outputs);
}

/// The graph of a net with its schedule for these patterns.
pub(crate) fn graph_walk(
    alloc: Global,
    net: &Net,
    patterns: &Patterns,
) -> Result<GraphWalk, AllocError>
    requires { patterns.now.inputs ≡ input_count net.now }
    ensures graph { IfOk result (λ walk. IsGraphOf net.now walk.made.graph walk.made.literals.items) }
    ensures schedule { IfOk result (λ walk. IsSchedule walk.made.graph walk.schedule) }
{
    let made = from_net(alloc, net)?;
    let schedule = scheduled(alloc, &made.graph, patterns)?;
    Ok(GraphWalk { made, schedule })
}

/// Computes all gates from the values of the inputs that are there.
fn settle(walk: &GraphWalk, wides: &mut [u64x8])
    requires schedule { IsSchedule walk.now.made.graph walk.now.schedule }
    requires room { length wides.old ≡ node_count walk.now.made.graph }
    ensures { IsSettled walk.now.schedule.order.items wides.new }
{
    walk.made.graph.is_graph();
    wides[0] = equal_words(0);
    eval_order(&walk.schedule.order, 0, wides);
}

/// The values of the nodes where all inputs are 0.
pub(crate) fn settled_values(alloc: Global, walk: &GraphWalk) -> Result<Vec<u64x8>, AllocError>
    requires { IsSchedule walk.now.made.graph walk.now.schedule }
    ensures room { IfOk result (λ wides. length wides.items ≡ node_count walk.now.made.graph) }
    ensures settled { IfOk result (λ wides. IsSettled walk.now.schedule.order.items wides.items) }
{
    let mut wides = vec![in alloc; equal_words(0); walk.made.graph.nodes() as usize]?;
    settle(walk, &mut wides);
    Ok(wides)
}
