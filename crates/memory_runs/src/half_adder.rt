//! A half adder, and what a synthesis within bound 1 makes of it.

/// The netlist: the sum of its two inputs, in two bits.
pub const HALF_ADDER: &[u8] =
    b".model ha\n.inputs a b\n.outputs s c\n.names a b s\n10 1\n01 1\n.names a b c\n11 1\n.end\n";

/// The words of the synthesis.
pub const SYNTHESIS: &[u8] = b"synth abs 1 1 ha.blif out";

/// The words of a check of its bundle.
pub const CHECK: &[u8] = b"check abs 1 ha.blif out";

/// The names of its bundle, in the order in which they are written.
pub const NAMES: [&[u8]; 5] = [b"out.blif", b"out.cnf", b"out.lrat", b"out.wit", b"out.txt"];

/// The vectors of its bundle: the witness first, and then all in counting order.
pub const VECTORS: &[u8] = b"10\n00\n10\n01\n11\n";

/// The report of its synthesis.
pub const REPORT: &[u8] =
    b"salsa 2\nmetric abs\nbound 1\nmaximum 1\nwitness 10\ntables 2 2\nliterals 6 1\nminimal yes\n";
