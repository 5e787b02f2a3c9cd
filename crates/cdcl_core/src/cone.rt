//! The cone of a pair: the signals on which the two signals of the pair depend.
ghost use Rattle.std.specs.Prelude.{◌≡◌, ◌<◌, ◌≤◌, ◌^◌, IfSome};
ghost use Rattle.cdcl_core.specs.Decided.{IsDecision};

use crate::decision::if_open;
use crate::decision_order::Order;
use crate::guide::Guide;
use crate::literal::Literal;
use crate::trail::Trail;
use net_parts::items::Signal;
use std::alloc::{AllocError, Global};

/// The signals of the cone, and for each signal of the net whether it is in the cone.
#[derive(Drop)]
pub struct Cone {
    signals: Vec<Signal>,
    within: Vec<bool>,
}

/// Adds a signal, where it is not in the cone yet.
fn reach(
    signals: &mut Vec<Signal>,
    within: &mut Vec<bool>,
    signal: Signal,
) -> Result<(), AllocError> {
    let at = signal as usize;
    if at < within.len() {
        if !within[at] {
            within[at] = true;
            signals.push(signal)?;
        }
    }
    Ok(())
}

/// Adds the signals that a table reads.
fn reach_pins(
    signals: &mut Vec<Signal>,
    within: &mut Vec<bool>,
    pins: &[Signal],
) -> Result<(), AllocError> {
    for pin in pins {
        reach(signals, within, *pin)?;
    }
    Ok(())
}

/// Adds the signals on which those of the cone depend.
fn reach_all(
    signals: &mut Vec<Signal>,
    within: &mut Vec<bool>,
    guide: &Guide,
) -> Result<(), AllocError> {
    for i in 0..guide.signals as usize {
        if i < signals.len() {
            let signal = signals[i];
            reach_pins(signals, within, guide.pins_of(signal))?;
        } else {
            break;
        }
    }
    Ok(())
}

/// Takes these signals out of the cone.
fn leave(within: &mut Vec<bool>, signals: &[Signal]) {
    for signal in signals {
        let at = *signal as usize;
        if at < within.len() {
            within[at] = false;
        }
    }
}

impl Cone {
    /// The empty cone, in a net of `signals` signals.
    pub fn new(alloc: Global, signals: u32) -> Result<Cone, AllocError> {
        Ok(Cone {
            signals: Vec::new(alloc),
            within: vec![in alloc; false; signals as usize]?,
        })
    }

    /// The cone of two signals: the two, and the signals on which they depend.
    pub fn set(&mut self, guide: &Guide, one: Signal, other: Signal) -> Result<(), AllocError> {
        leave(&mut self.within, &self.signals);
        self.signals.clear();
        reach(&mut self.signals, &mut self.within, one)?;
        reach(&mut self.signals, &mut self.within, other)?;
        reach_all(&mut self.signals, &mut self.within, guide)
    }

    /// The variable of the open signal of the cone with the greatest stamp, or 0.
    fn latest(&self, trail: &Trail, order: &Order) -> u32
        requires { trail.now.variables < 2 ^ 31 }
        ensures { result ≤ trail.now.variables }
    {
        let mut latest = 0;
        let mut stamp = 0;
        for signal in &self.signals {
            if *signal < trail.variables() {
                let later = order.stamp(*signal + 1);
                if stamp < later && trail.is_open(Literal::of(*signal + 1, true)) {
                    latest = *signal + 1;
                    stamp = later;
                }
            }
        }
        latest
    }

    /// The variable of the open signal of the cone with the greatest stamp, with the value that it had last.
    pub fn decide(&self, trail: &Trail, order: &Order) -> Option<Literal>
        requires small { trail.now.variables < 2 ^ 31 }
        requires variables { order.now ≡ trail.now.variables }
        ensures { IfSome result (IsDecision trail.now) }
    {
        let latest = self.latest(trail, order);
        if latest == 0 {
            return None;
        }
        if_open(trail, Literal::of(latest, order.value(latest)))
    }
}
