//! Buses: lists of signals, bit 0 first.
ghost use Rattle.std.specs.Prelude.{◌≡◌, ◌<◌, ◌≤◌, ◌-◌, ◌^◌, ◌∷◌, length, replicate, drop, IfOk};

use net_parts::items::{Signal, SignalList};
use semantics::limits::MOST_OUTPUTS;
use std::alloc::{AllocError, Global};

/// A list of signals, bit 0 first.
pub type Bus = SignalList;

/// A bus of one bit, and then the others.
pub fn with_front(alloc: Global, first: Signal, rest: &[Signal]) -> Result<Bus, AllocError>
    ensures { IfOk result (λ b. b ≡ first ∷ rest.now) }
{
    let mut bus = Bus::new(alloc);
    bus.push(first)?;
    bus.push_copies(rest)?;
    Ok(bus)
}

/// The bus that has the signal `count` times.
pub fn repeated(alloc: Global, signal: Signal, count: usize) -> Result<Bus, AllocError>
    ensures { IfOk result (λ b. b ≡ replicate count signal) }
{
    let mut bus = Bus::new(alloc);
    for _at in 0..count {
        bus.push(signal)?;
    }
    Ok(bus)
}

/// The greatest number of a bus that is no wider than a word may be.
pub fn greatest(bus: &Bus) -> u128
    requires { length bus.now ≤ MOST_OUTPUTS }
    ensures value { result ≡ 2 ^ length bus.now - 1 }
    ensures few { result < 2 ^ 64 }
{
    (1u128 << bus.len()) - 1
}
