//! Which patterns an adder cares for at its inner carry: turning it over turns the tables that read it.
ghost use Rattle.std.specs.Prelude.{◌≡◌, IfOk};
ghost use Rattle.semantics.specs.Net.{IsSmall};

use crate::metrics::ABSOLUTE;
use crate::nets::net;
use care_masks::fixed::FixedMasks;
use lane_bits::patterns::Patterns;
use net_core::net::Net;
use net_errors::ports::same_ports;
use std::alloc::{AllocError, Global};
use std::test::Fail;

/// The adder of two words of two bits: table 1 is the carry into the second bit, and tables 2 and 3 read it.
const ADDER: &[u8] = b".model demo\n.inputs a0 a1 b0 b1\n.outputs s0 s1 c2\n\
    .names a0 b0 s0\n10 1\n01 1\n.names a0 b0 c1\n11 1\n\
    .names a1 b1 c1 s1\n100 1\n010 1\n001 1\n111 1\n.names a1 b1 c1 c2\n11- 1\n1-1 1\n-11 1\n.end\n";

/// The one pattern of four zeros.
fn zeros(alloc: Global) -> Result<Patterns, AllocError>
    ensures { IfOk result (λ patterns. patterns.inputs ≡ 4) }
{
    let mut patterns = Patterns::new(alloc, 4);
    patterns.push(&[false, false, false, false])?;
    Ok(patterns)
}

/// The first word of the patterns that the carry is cared for, where the adder may not err at all.
fn carry_care(alloc: Global, adder: &Net, patterns: &Patterns) -> Result<Option<u64>, Fail>
    requires small { IsSmall adder.now }
    requires inputs { patterns.now.inputs ≡ 4 }
{
    if adder.inputs() != 4 || adder.outputs() != 3 || adder.tables() != 4 {
        return Err(Fail::new("no adder"));
    }
    if !same_ports(adder, adder) {
        return Err(Fail::new("no approximation of the adder"));
    }
    let masks = FixedMasks::new(alloc, ABSOLUTE, 0, adder, adder, patterns)?;
    Ok(masks.care(1).first().copied())
}

/// At zeros the flipped carry is read as 1, so that the sum is 2.
#[test]
fn the_inner_carry_is_cared_for_at_zeros(rt: HostRuntime) -> Result<(), Fail> {
    let adder = net(rt.alloc(), ADDER)?;
    let patterns = zeros(rt.alloc())?;
    assert_eq!(rt; carry_care(rt.alloc(), &adder, &patterns)?, Some(1));
    Ok(())
}
