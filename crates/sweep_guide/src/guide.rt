//! The guide of a net.
use crate::classes::Signatures;
use cdcl_core::guide::{Candidate, Guide};
use net_core::items::{Items, Signal, SignalList};
use net_core::net::Net;
use std::alloc::{AllocError, Global};
use std::collections::HashMap;

/// The signals that each table reads.
fn pins_of(alloc: Global, net: &Net) -> Result<Items<SignalList>, AllocError> {
    let mut pins = Items::new(alloc);
    for t in 0..net.tables() {
        pins.push(net.table(t).pins().copy()?)?;
    }
    Ok(pins)
}

/// The signals of the tables, each behind the signals that its table reads.
fn order_of(alloc: Global, net: &Net) -> Result<SignalList, AllocError> {
    let mut order = Items::new(alloc);
    for table in net.order() {
        order.push(table.saturating_add(net.inputs()))?;
    }
    Ok(order)
}

/// The first input of each key.
fn first_inputs(
    alloc: Global,
    net: &Net,
    signatures: &Signatures,
) -> Result<HashMap<u64, Signal>, AllocError> {
    let mut firsts = HashMap::new(alloc);
    for input in 0..net.inputs() {
        let _first = signatures.pair(&mut firsts, input)?;
    }
    Ok(firsts)
}

/// The tables' signals that may be equal to an earlier signal, in their order, each with the first signal
/// that has the same key.
fn candidates_of(
    alloc: Global,
    net: &Net,
    order: &[Signal],
) -> Result<Items<Candidate>, AllocError> {
    let signatures = Signatures::of(alloc, net)?;
    let mut firsts = first_inputs(alloc, net, &signatures)?;
    let mut candidates = Items::new(alloc);
    for signal in order {
        if let Some(candidate) = signatures.pair(&mut firsts, *signal)? {
            candidates.push(candidate)?;
        }
    }
    Ok(candidates)
}

/// A guide for the formula of a net: its inputs, its tables, and the pairs of signals that agree at 256
/// patterns, or are opposite at all of them. `search_first` says that the search goes on for a while before
/// the pairs are tried.
pub fn guide_of(alloc: Global, net: &Net, search_first: bool) -> Result<Guide, AllocError> {
    let order = order_of(alloc, net)?;
    let candidates = candidates_of(alloc, net, order.as_slice())?;
    Ok(Guide {
        inputs: net.inputs(),
        signals: net.signals(),
        pins: pins_of(alloc, net)?,
        order,
        candidates,
        search_first,
    })
}
