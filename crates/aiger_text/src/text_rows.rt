//! Texts that are read, and texts that are refused.
use crate::reading::read_aiger;
use crate::refusal::AigerRefusal;
use semantics::limits::MOST_INPUT_BYTES;
use std::alloc::Global;

const HALF_ADDER: &[u8] =
    b"aag 6 2 0 2 4\n2\n4\n11\n12\n6 2 5\n8 3 4\n10 7 9\n12 2 4\ni0 a\ni1 b\no0 s\no1 c\n";

/// The number of tables of the net of a text, and 0; or 0, and the number of the refusal.
fn tables_or_refusal(alloc: Global, text: &[u8]) -> (u32, u8) {
    match read_aiger(alloc, text, MOST_INPUT_BYTES as u64) {
        Ok(net) => (net.tables(), 0),
        Err(refusal) => (0, refusal.number()),
    }
}

/// The line of an input, an output or an AND that is refused, or 0.
fn refused_line(alloc: Global, text: &[u8]) -> u64 {
    match read_aiger(alloc, text, MOST_INPUT_BYTES as u64) {
        Err(AigerRefusal::Line(line)) => line,
        _ => 0,
    }
}

#[test]
fn a_half_adder_is_read(rt: HostRuntime) {
    assert_eq!(rt; tables_or_refusal(rt.alloc(), HALF_ADDER), (6, 0));
}

#[test]
fn latches_are_refused(rt: HostRuntime) {
    assert_eq!(rt;
        tables_or_refusal(rt.alloc(), b"aag 1 0 1 0 0\n2 3\n"),
        (0, 3)
    );
}

#[test]
fn a_literal_above_the_greatest_is_refused(rt: HostRuntime) {
    assert_eq!(rt; refused_line(rt.alloc(), b"aag 1 1 0 1 0\n2\n4\n"), 3);
}
