//! A full adder made of two half adders, and the one netlist that it becomes, byte for byte.
use memory_runs::half_adder::HALF_ADDER;
use memory_runs::held::{holds, joined};
use memory_runs::runs::run_on;
use std::test::Fail;

/// The model that uses the half adder twice; the half adder's own model follows.
const USES: &[u8] = b".model fa\n.inputs a b c\n.outputs s co\n\
    .subckt ha a=a b=b s=t c=u\n.subckt ha a=t b=c s=s c=v\n.names u v co\n1- 1\n-1 1\n.end\n";

/// The tables of the first use and its two buffers, those of the second, and the table of the carry.
const FLAT: &[u8] = b".model fa\n.inputs a b c\n.outputs s co\n\
    .names a b $u0\n10 1\n01 1\n.names a b $u1\n11 1\n.names $u0 t\n1 1\n.names $u1 u\n1 1\n\
    .names t c $u4\n10 1\n01 1\n.names t c $u5\n11 1\n.names $u4 s\n1 1\n.names $u5 v\n1 1\n\
    .names u v co\n1- 1\n-1 1\n.end\n";

#[test]
fn full_adder_of_half_adders(rt: HostRuntime) -> Result<(), Fail> {
    let text = joined(rt.alloc(), USES, HALF_ADDER)?;
    let ended = run_on(rt.alloc(), b"flat ha.blif out", &text)?;
    assert_eq!(rt; ended.status.exit(), 0);
    assert!(rt; holds(&ended.files, b"out", Some(FLAT)), "the flat netlist");
    Ok(())
}
