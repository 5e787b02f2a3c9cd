//! The gates of a graph in an order in which those that hang on fast inputs come late.
//!
//! From one wide block of patterns to the next only some inputs change, and a gate is computed anew only if
//! it hangs on one of them. A schedule orders the gates by the fastest input that each of them hangs on, so
//! what has to be computed anew is the end of the schedule, from the first gate that reads a changed input.
ghost use Rattle.std.specs.Prelude.{◌≡◌, ◌+◌, ◌*◌, ◌/◌, ◌<◌, ◌≤◌, ℕ, length, slice_index, IfOk, OnOk};
ghost use Rattle.semantics.specs.Net.{input_count};
ghost use Rattle.lane_bits.specs.Rows.{word_count};
ghost use Rattle.aig_core.specs.Graph.{gate_node, node_count};
ghost use Rattle.aig_core.specs.Signals.{IsGraphOf};
ghost use Rattle.lane_nets.specs.Schedules.{AreClasses, AreFirstReads, AreEntriesOf, AreEntriesBelow};
ghost use Rattle.lane_nets.specs.Schedules.{IsSchedule, ReadsBelow, class_bound, entry_at};

use aig_core::graph::Aig;
use aig_core::literal::Literal;
use lane_bits::patterns::Patterns;
use std::alloc::{AllocError, Global};

/// The greatest class of a gate: how often the number of wide blocks may be doubled.
const MOST_CLASS: u32 = 16;

/// A gate that is computed: its node, and the literals that it reads.
#[derive(Clone, Copy)]
pub struct Entry {
    pub left: Literal,
    pub right: Literal,
    pub node: u32,
}

/// The gates of a graph in the order in which they are computed, and for each node the place of the first
/// gate that reads it, or a place past the last gate.
#[derive(Drop)]
pub struct Schedule {
    pub order: Vec<Entry>,
    pub firsts: Vec<usize>,
}

/// The class of an input by its row: the greater, the sooner one of the wide blocks 1, 2, 4, 8 and so on
/// differs from block 0, and 0 where none does.
fn input_class(row: &[u64]) -> u32
    ensures { result ≤ MOST_CLASS }
{
    for i in 0..MOST_CLASS {
        let at = 8 << i;
        if at < row.len() && row[at] != row[0] {
            return MOST_CLASS - i;
        }
    }
    0
}

/// Sets the classes of the inputs.
fn set_input_classes(patterns: &Patterns, classes: &mut [u32])
    requires room { patterns.now.inputs < length classes.old }
    requires few { (n : ℕ) → slice_index classes.old n ≤ MOST_CLASS }
    ensures { (n : ℕ) → slice_index classes.new n ≤ MOST_CLASS }
{
    for s in 0..patterns.inputs() {
        classes[1 + s as usize] = input_class(patterns.row(s));
    }
}

/// Sets the classes of the gates: each gate has the greater one of those of the nodes that it reads.
fn set_gate_classes(graph: &Aig, classes: &mut [u32])
    requires room { length classes.old ≡ node_count graph.now }
    requires few { (n : ℕ) → slice_index classes.old n ≤ MOST_CLASS }
    ensures { AreClasses graph.now MOST_CLASS classes.new }
{
    let first = 1 + graph.inputs() as usize;
    for (i, gate) in graph.gates().iter().enumerate() {
        let (left, right) = ((gate.left / 2) as usize, (gate.right / 2) as usize);
        classes[first + i] = classes[left].max(classes[right]);
    }
}

/// The class of each node: that of the fastest input that it hangs on.
fn node_classes(alloc: Global, graph: &Aig, patterns: &Patterns) -> Result<Vec<u32>, AllocError>
    requires { patterns.now.inputs ≡ graph.now.inputs }
    ensures { IfOk result (λ classes. AreClasses graph.now MOST_CLASS classes.items) }
{
    let mut classes = vec![in alloc; 0; graph.nodes() as usize]?;
    set_input_classes(patterns, &mut classes);
    set_gate_classes(graph, &mut classes);
    Ok(classes)
}

/// Adds the gates of one class in their order, behind those of lesser classes.
fn push_class(
    graph: &Aig,
    classes: &[u32],
    class: u32,
    order: &mut Vec<Entry>,
) -> Result<(), AllocError>
    requires classes { AreClasses graph.now MOST_CLASS classes.now }
    requires lesser { AreEntriesBelow graph.now classes.now (class_bound graph.now class) order.old.items }
    ensures { OnOk result (AreEntriesBelow graph.now classes.now (class_bound graph.now (class + 1))
        order.new.items) }
{
    graph.is_graph();
    let first = 1 + graph.inputs();
    for (i, gate) in graph.gates().iter().enumerate() {
        let node = first + i as u32;
        if classes[node as usize] == class {
            order.push(Entry {
                left: gate.left,
                right: gate.right,
                node,
            })?;
        }
    }
    Ok(())
}

/// The gates by their classes, and in their order within each class.
fn sorted_gates(alloc: Global, graph: &Aig, classes: &[u32]) -> Result<Vec<Entry>, AllocError>
    requires { AreClasses graph.now MOST_CLASS classes.now }
    ensures { IfOk result (λ order. AreEntriesOf graph.now order.items) }
{
    graph.is_graph();
    let mut order = Vec::new(alloc);
    for class in 0..MOST_CLASS + 1 {
        push_class(graph, classes, class, &mut order)?;
    }
    Ok(order)
}

/// Lowers the place of node n to place i, where it is greater.
fn lower(firsts: &mut [usize], n: usize, i: usize)
    requires { n < length firsts.old }
    ensures lowered { (k : ℕ) → slice_index firsts.new k ≤ slice_index firsts.old k }
    ensures low { slice_index firsts.new n ≤ i }
{
    firsts[n] = firsts[n].min(i);
}

/// Sets for each node the place of the first gate that reads it, where one does.
fn set_firsts(order: &[Entry], firsts: &mut [usize])
    requires { (p : ℕ) → p < length order.now
        → ReadsBelow (length firsts.old) (entry_at order.now p) }
    ensures { AreFirstReads order.now firsts.new }
{
    for (i, entry) in order.iter().enumerate() {
        lower(firsts, (entry.left / 2) as usize, i);
        lower(firsts, (entry.right / 2) as usize, i);
    }
}

/// For each of the nodes the place of the first gate that reads it, or a place past the last gate.
fn first_reads(alloc: Global, order: &[Entry], nodes: usize) -> Result<Vec<usize>, AllocError>
    requires { (p : ℕ) → p < length order.now → ReadsBelow nodes (entry_at order.now p) }
    ensures count { IfOk result (λ firsts. length firsts.items ≡ nodes) }
    ensures firsts { IfOk result (λ firsts. AreFirstReads order.now firsts.items) }
{
    let mut firsts = vec![in alloc; usize::MAX; nodes]?;
    set_firsts(order, &mut firsts);
    Ok(firsts)
}

/// The schedule of a graph for these patterns.
pub(crate) fn scheduled(
    alloc: Global,
    graph: &Aig,
    patterns: &Patterns,
) -> Result<Schedule, AllocError>
    requires { patterns.now.inputs ≡ graph.now.inputs }
    ensures { IfOk result (IsSchedule graph.now) }
{
    graph.is_graph();
    let classes = node_classes(alloc, graph, patterns)?;
    let order = sorted_gates(alloc, graph, &classes)?;
    let firsts = first_reads(alloc, &order, graph.nodes() as usize)?;
    Ok(Schedule { order, firsts })
}
