//! The cone of a literal: the nodes on which its value depends. No statement rests on which nodes are in it.
use aig_core::gate::Gate;
use aig_core::graph::Aig;
use aig_core::literal::{Literal, node_of};
use std::alloc::{AllocError, Global};

/// Marks the node of a literal.
fn mark(within: &mut [bool], literal: Literal) {
    let node = node_of(literal) as usize;
    if node < within.len() {
        within[node] = true;
    }
}

/// Whether a node is marked.
pub(crate) fn is_within(within: &[bool], node: usize) -> bool {
    node < within.len() && within[node]
}

/// Marks the nodes that marked gates read; the last gate comes first. `first` is the node of the first gate.
fn mark_read(within: &mut [bool], first: usize, gates: &[Gate]) {
    let mut i = gates.len();
    while i > 0 {
        i -= 1;
        if is_within(within, first.saturating_add(i)) {
            mark(within, gates[i].left);
            mark(within, gates[i].right);
        }
    }
}

/// For each node of the graph whether the literal depends on it.
pub(crate) fn cone_of(
    alloc: Global,
    graph: &Aig,
    literal: Literal,
) -> Result<Vec<bool>, AllocError> {
    let mut within = vec![in alloc; false; graph.nodes() as usize]?;
    mark(&mut within, literal);
    mark_read(&mut within, graph.inputs() as usize + 1, graph.gates());
    Ok(within)
}
