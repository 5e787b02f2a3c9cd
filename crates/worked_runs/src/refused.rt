//! Netlists that are refused, each with its line.
use memory_runs::held::{holds, joined};
use memory_runs::runs::run_on;
use std::test::Fail;

const PORTS: &[u8] = b".model m\n.inputs a b\n.outputs y\n";

/// The two parts of a text, and its line.
const REFUSED: [(&[u8], &[u8], &str); 15] = [
    (PORTS, b".latch a y 0\n", "line 4: unknown command .latch"),
    (PORTS, b"1 1\n", "line 4: row without a table"),
    (PORTS, b".names a b y\n1 1\n", "line 5: bad row"),
    (PORTS, b".names a b y\n11 1\n00 0\n", "line 6: mixed planes"),
    (PORTS, b".names a\\ y\n", "line 4: bad name"),
    (PORTS, b".names\n", "line 4: .names without a name"),
    (PORTS, b".end\n.model n\n", "line 5: text after .end"),
    (PORTS, b".model n\n", "line 4: second model"),
    (PORTS, b".names a \x80\n", "line 4: bad byte"),
    (
        PORTS,
        b".names z y\n1 1\n.names y z\n1 1\n",
        "y depends on itself or on a cycle",
    ),
    (
        PORTS,
        b".names z y\n1 1\n.names y z\n1 1\n.names q r\n",
        "q is not driven",
    ),
    (
        PORTS,
        b".names z y\n1 1\n.names y z\n1 1\n.names q r\n.names b\n",
        "b is driven twice",
    ),
    (
        b".model m\n.inputs a b\n",
        b".names z y\n1 1\n.names y z\n1 1\n.names q r\n",
        "no output",
    ),
    (b"", b"", "no output"),
    (b"# \x80\n", b".inputs a\n", "no output"),
];

/// Whether the text of the two parts is refused with this line, and nothing is made.
fn is_refused(rt: &HostRuntime, first: &[u8], second: &[u8], line: &str) -> Result<bool, Fail> {
    let text = joined(rt.alloc(), first, second)?;
    let ended = run_on(rt.alloc(), b"synth abs 3 1 ha.blif out", &text)?;
    let said = ended.status.to_string(rt.alloc())?;
    Ok(
        ended.status.exit() == 2
            && said.as_str() == line
            && holds(&ended.files, b"out.blif", None)
            && ended.sink.bytes().is_empty(),
    )
}

#[test]
fn texts_that_are_refused(rt: HostRuntime) -> Result<(), Fail> {
    for (first, second, line) in REFUSED {
        assert!(rt; is_refused(&rt, first, second, line)?, "{line}");
    }
    Ok(())
}
