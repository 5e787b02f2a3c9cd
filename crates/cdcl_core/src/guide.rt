//! What a caller knows of the net behind a formula: which variables are inputs and signals, what each table
//! reads, and which signals may be equal. A guide guides a search, and no statement depends on it: numbers
//! that fit no variable are ignored.
use net_parts::items::{Items, Signal, SignalList};
use std::alloc::Global;

/// A signal, and an earlier one that had the same value at each pattern that was tried, or the opposite value
/// at each.
#[derive(Clone, Copy, Drop)]
pub struct Candidate {
    pub signal: Signal,
    pub earlier: Signal,
    pub opposite: bool,
}

/// A guide of a search. The variable of signal s is s + 1.
#[derive(Drop)]
pub struct Guide {
    /// How many inputs the net has.
    pub inputs: u32,
    /// The number of signals of the net, the inputs first and then the tables; 0 where this is not known, and
    /// then each variable is decided.
    pub signals: u32,
    /// The signals that each table reads.
    pub pins: Items<SignalList>,
    /// The signals of the tables, each behind the signals that its table reads.
    pub order: SignalList,
    /// The pairs that may be equal, or opposite, in the order in which they are tried.
    pub candidates: Items<Candidate>,
    /// Whether the search goes first, for a hundred conflicts, before the pairs are tried.
    pub search_first: bool,
}

impl Guide {
    /// Nothing is known.
    pub fn none(alloc: Global) -> Guide {
        Guide {
            inputs: 0,
            signals: 0,
            pins: Items::new(alloc),
            order: Items::new(alloc),
            candidates: Items::new(alloc),
            search_first: false,
        }
    }

    /// The signals that the table of a signal reads; an input has none.
    pub fn pins_of(&self, signal: Signal) -> &[Signal] {
        if signal < self.inputs {
            return &[];
        }
        let table = (signal - self.inputs) as usize;
        if table < self.pins.len() {
            self.pins.get(table).as_slice()
        } else {
            &[]
        }
    }
}
