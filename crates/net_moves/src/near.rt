//! The signals near a table: its pins, and the pins of the tables among these.
ghost use Rattle.std.specs.Prelude.{◌≡◌, ◌<◌, List, ℕ, [], ◌++◌, length, slice_index};
ghost use Rattle.semantics.specs.Net.{table_at, table_count, signal_count};
ghost use Rattle.chain_semantics.specs.Moves.{pins_of, near_signals};
ghost use Rattle.net_moves.specs.Left.{first_once, with_signal};

use arrayvec::ArrayVec;
use chain_semantics::moves::MOST_NEAR_SIGNALS;
use net_core::items::Signal;
use net_core::net::Net;
use std::marker::Model;

/// The first distinct signals of a list, as many as a table has near signals at most.
#[derive(Drop)]
pub(crate) struct NearSignals {
    signals: ArrayVec<Signal, MOST_NEAR_SIGNALS>,
}

impl Model for NearSignals {
    ghost use Rattle.std.specs.Prelude.{List, ℕ};

    ghost Value = { List ℕ };

    ghost view = { λ a. a.signals.items };
}

/// The pins of a signal that is a table; an input has none.
fn pins_of(net: &Net, s: Signal) -> &[Signal]
    requires { s < signal_count net.now }
    ensures { result.now ≡ pins_of net.now s }
{
    let inputs = net.inputs();
    if s < inputs {
        &[]
    } else {
        net.table(s - inputs).pins().as_slice()
    }
}

impl NearSignals {
    pub(crate) fn new() -> NearSignals
        ensures { result ≡ [] }
    {
        NearSignals {
            signals: ArrayVec::new(),
        }
    }

    pub(crate) fn clear(&mut self)
        ensures { self.new ≡ [] }
    {
        self.signals.clear();
    }

    pub(crate) fn len(&self) -> usize
        ensures { result ≡ length self.now }
    {
        self.signals.len()
    }

    /// The signal at a place, from 0.
    pub(crate) fn get(&self, place: usize) -> Signal
        requires { place < length self.now }
        ensures { result ≡ slice_index self.now place }
    {
        self.signals.as_slice()[place]
    }

    /// Adds a signal at the end, unless the signal is there already or there is no room.
    fn add(&mut self, s: Signal)
        ensures { self.new ≡ with_signal self.old s }
    {
        if !self.signals.is_full() && !self.signals.as_slice().contains(&s) {
            self.signals.push(s);
        }
    }

    /// Adds these signals behind those that were added before.
    fn add_all(&mut self, signals: &[Signal])
        ensures { (before : List ℕ) → self.old ≡ first_once before
            → self.new ≡ first_once (before ++ signals.now) }
    {
        for s in signals {
            self.add(*s);
        }
    }

    /// Finds the signals near a table.
    pub(crate) fn find(&mut self, net: &Net, t: u32)
        requires { t < table_count net.now }
        ensures { self.new ≡ near_signals net.now (table_at net.now.tables t) }
    {
        self.clear();
        let pins = net.table(t).pins().as_slice();
        self.add_all(pins);
        for pin in pins {
            self.add_all(pins_of(net, *pin));
        }
    }
}
