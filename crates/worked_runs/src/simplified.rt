//! Netlists that are simplified, and words that are jobs and that are none. The expected texts are worked by
//! hand.
use crate::texts::{BOTH_CONSTANT, CARRY_COPIED};
use memory_runs::half_adder::{HALF_ADDER, REPORT, VECTORS};
use memory_runs::held::{begins, holds};
use memory_runs::runs::run_on;
use std::test::Fail;

/// A run that is done: its words, the text of IN, and the files that the run leaves; of the formula only the
/// first line.
#[derive(Clone, Copy)]
struct Simplified<'a> {
    line: &'a [u8],
    text: &'a [u8],
    netlist: &'a [u8],
    header: &'a [u8],
    vectors: &'a [u8],
    report: &'a [u8],
}

/// The half adder within several bounds, and a constant, a wire, rows that end in 0, and comments with
/// continued lines.
const NETLISTS: [Simplified; 10] = [
    Simplified {
        line: b"synth abs 3 1 ha.blif out",
        text: HALF_ADDER,
        netlist: BOTH_CONSTANT,
        header: b"p cnf 75 242\n",
        vectors: b"11\n00\n10\n01\n11\n",
        report: b"salsa 2\nmetric abs\nbound 3\nmaximum 2\nwitness 11\ntables 2 2\nliterals 6 0\nminimal yes\n",
    },
    Simplified {
        line: b"synth abs 1 1 ha.blif out",
        text: HALF_ADDER,
        netlist: CARRY_COPIED,
        header: b"p cnf 76 245\n",
        vectors: VECTORS,
        report: REPORT,
    },
    Simplified {
        line: b"synth abs 0 1 ha.blif out",
        text: HALF_ADDER,
        netlist: HALF_ADDER,
        header: b"p cnf 78 254\n",
        vectors: b"00\n00\n10\n01\n11\n",
        report: b"salsa 2\nmetric abs\nbound 0\nmaximum 0\nwitness 00\ntables 2 2\nliterals 6 6\nminimal yes\n",
    },
    Simplified {
        line: b"synth ham 1 1 ha.blif out",
        text: HALF_ADDER,
        netlist: BOTH_CONSTANT,
        header: b"p cnf 30 71\n",
        vectors: VECTORS,
        report: b"salsa 2\nmetric ham\nbound 1\nmaximum 1\nwitness 10\ntables 2 2\nliterals 6 0\nminimal yes\n",
    },
    Simplified {
        line: b"synth rel 999999 1 ha.blif out",
        text: HALF_ADDER,
        netlist: b".model ha\n.inputs a b\n.outputs s c\n.names a b s\n1- 1\n-1 1\n.names c\n.end\n",
        header: b"p cnf 2377 8828\n",
        vectors: b"11\n00\n10\n01\n11\n",
        report: b"salsa 2\nmetric rel\nbound 999999\nmaximum 500000\nwitness 11\ntables 2 2\nliterals 6 2\nminimal yes\n",
    },
    Simplified {
        line: b"synth rel 1000000 1 ha.blif out",
        text: HALF_ADDER,
        netlist: BOTH_CONSTANT,
        header: b"p cnf 2375 8822\n",
        vectors: VECTORS,
        report: b"salsa 2\nmetric rel\nbound 1000000\nmaximum 1000000\nwitness 10\ntables 2 2\nliterals 6 0\nminimal yes\n",
    },
    Simplified {
        line: b"synth abs 0 1 ha.blif out",
        text: b".model k\n.outputs y\n.names y\n1\n.end\n",
        netlist: b".model k\n.inputs\n.outputs y\n.names y\n1\n.end\n",
        header: b"p cnf 44 138\n",
        vectors: b"\n\n",
        report: b"salsa 2\nmetric abs\nbound 0\nmaximum 0\nwitness \ntables 1 1\nliterals 0 0\nminimal yes\n",
    },
    Simplified {
        line: b"synth abs 0 1 ha.blif out",
        text: b".model w\n.inputs a\n.outputs a\n.end\n",
        netlist: b".model w\n.inputs a\n.outputs a\n.end\n",
        header: b"p cnf 41 132\n",
        vectors: b"0\n0\n1\n",
        report: b"salsa 2\nmetric abs\nbound 0\nmaximum 0\nwitness 0\ntables 0 0\nliterals 0 0\nminimal yes\n",
    },
    Simplified {
        line: b"synth abs 0 1 ha.blif out",
        text: b".model m\n.inputs a b\n.outputs y z\n.names a b y\n00 0\n.names a b z\n1- 1\n-1 1\n.end\n",
        netlist: b".model m\n.inputs a b\n.outputs y z\n.names z y\n1 1\n.names a b z\n1- 1\n-1 1\n.end\n",
        header: b"p cnf 78 249\n",
        vectors: b"00\n00\n10\n01\n11\n",
        report: b"salsa 2\nmetric abs\nbound 0\nmaximum 0\nwitness 00\ntables 2 2\nliterals 4 3\nminimal yes\n",
    },
    Simplified {
        line: b"synth abs 0 1 ha.blif out",
        text: b".model t # note \\\r\n.inputs a \\\r\n b\r\n.outputs y\r\n.names a b y\r\n11 1\r\n.end\r\n",
        netlist: b".model t\n.inputs a b\n.outputs y\n.names a b y\n11 1\n.end\n",
        header: b"p cnf 46 142\n",
        vectors: b"00\n00\n10\n01\n11\n",
        report: b"salsa 2\nmetric abs\nbound 0\nmaximum 0\nwitness 00\ntables 1 1\nliterals 2 2\nminimal yes\n",
    },
];

fn is_simplified(rt: &HostRuntime, row: &Simplified) -> Result<bool, Fail> {
    let done = run_on(rt.alloc(), row.line, row.text)?;
    Ok(
        done.status.exit() == 0
            && holds(&done.files, b"out.blif", Some(row.netlist))
            && begins(&done.files, b"out.cnf", row.header)
            && holds(&done.files, b"out.wit", Some(row.vectors))
            && holds(&done.files, b"out.txt", Some(row.report))
            && holds(&done.files, b"ha.blif", Some(row.text))
            && done.sink.bytes() == row.report,
    )
}

#[test]
fn netlists_that_are_simplified(rt: HostRuntime) -> Result<(), Fail> {
    for (place, row) in NETLISTS.iter().enumerate() {
        assert!(rt; is_simplified(&rt, row)?, "row {place}");
    }
    Ok(())
}

/// Whether the words end with this number, and make `b.blif` exactly where they are done.
fn ends_with(rt: &HostRuntime, line: &[u8], exit: u8) -> Result<bool, Fail> {
    let ended = run_on(rt.alloc(), line, HALF_ADDER)?;
    Ok(
        ended.status.exit() == exit
            && ended.files.bytes(b"b.blif").is_some() == (exit == 0)
            && holds(&ended.files, b"out.blif", None),
    )
}

#[test]
fn words_and_their_answers(rt: HostRuntime) -> Result<(), Fail> {
    let rows: [(&[u8], u8); 18] = [
        (b"", 1),
        (b" ", 1),
        (b"--help", 1),
        (b"synth abs 01 1 ha.blif b", 1),
        (b"synth abs 19342813113834066795298816 1 ha.blif b", 1),
        (b"synth abs 1 0 ha.blif b", 1),
        (b"synth abs 1 100001 ha.blif b", 1),
        (b"synth max 1 1 ha.blif b", 1),
        (b"synth abs 1 1 ha.blif ha", 1),
        (b"synth abs 1 1 b.cnf b", 1),
        (b"synth abs 1 1 ha.blif ", 1),
        (b"synth abs 1 1 ha.blif b b", 1),
        (b"demo 33 1 1", 1),
        (b"demo 0 1 1", 1),
        (b"synth abs 19342813113834066795298815 1 ha.blif b", 0),
        (b"synth rel 1 1 ha.blif b", 0),
        (b"check abs 1 ha.blif out", 5),
        (b"synth abs 1 1 other.blif b", 5),
    ];
    for (place, (line, exit)) in rows.into_iter().enumerate() {
        assert!(rt; ends_with(&rt, line, exit)?, "row {place}");
    }
    Ok(())
}
