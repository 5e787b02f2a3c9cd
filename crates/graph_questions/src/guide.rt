//! The guide of a search over the clauses of a graph's cone. Signal n is node n, so that the constant counts
//! as an input.
use crate::cone::is_within;
use aig_core::graph::Aig;
use aig_core::literal::node_of;
use cdcl_core::guide::Guide;
use net_parts::items::{Items, SignalList};
use std::alloc::{AllocError, Global};

/// The nodes that each gate reads.
fn pins_of(alloc: Global, graph: &Aig) -> Result<Items<SignalList>, AllocError> {
    let mut pins = Items::new(alloc);
    for gate in graph.gates() {
        let read = [node_of(gate.left), node_of(gate.right)];
        pins.push(SignalList::from_slice(alloc, &read)?)?;
    }
    Ok(pins)
}

/// The gates of the cone, each behind those that it reads.
fn order_of(alloc: Global, graph: &Aig, cone: &[bool]) -> Result<SignalList, AllocError> {
    let mut order = Items::new(alloc);
    for node in graph.inputs().saturating_add(1)..graph.nodes() {
        if is_within(cone, node as usize) {
            order.push(node)?;
        }
    }
    Ok(order)
}

/// A guide for the formula of a cone: its gates, without pairs of nodes.
pub(crate) fn guide_of(alloc: Global, graph: &Aig, cone: &[bool]) -> Result<Guide, AllocError> {
    Ok(Guide {
        inputs: graph.inputs().saturating_add(1),
        signals: graph.nodes(),
        pins: pins_of(alloc, graph)?,
        order: order_of(alloc, graph, cone)?,
        candidates: Items::new(alloc),
        search_first: true,
    })
}
