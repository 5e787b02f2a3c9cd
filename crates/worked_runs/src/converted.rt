//! Texts that are turned into others, each with what it becomes or the line by which it is refused.
use memory_runs::half_adder::HALF_ADDER;
use memory_runs::held::{holds, joined};
use memory_runs::runs::run_on;
use std::test::Fail;

const CIRCUIT: &[u8] =
    b"aag 6 2 0 2 4\n2\n4\n11\n12\n6 2 5\n8 3 4\n10 7 9\n12 2 4\ni0 a\ni1 b\no0 s\no1 c\n";

/// What is read of it, in two parts.
const READ_TABLES: &[u8] =
    b".model top\n.inputs a b\n.outputs s c\n.names a b $a3\n10 1\n.names a b $a4\n01 1\n.names $a3 $a4 $a5\n00 1\n";

const READ_OUTPUTS: &[u8] = b".names a b $a6\n11 1\n.names $a5 s\n0 1\n.names $a6 c\n1 1\n.end\n";

/// Full adders of two half adders, whose model follows: the first use leaves an input open, or is of no
/// model, or all is right.
const NOT_BOUND: &[u8] =
    b".model fa\n.inputs a b c\n.outputs s co\n.subckt ha a=a s=t c=u\n.subckt ha a=t b=c s=s c=v\n.names u v co\n1- 1\n-1 1\n.end\n";

const NOT_THERE: &[u8] =
    b".model fa\n.inputs a b c\n.outputs s co\n.subckt hb a=a b=b s=t c=u\n.subckt ha a=t b=c s=s c=v\n.names u v co\n1- 1\n-1 1\n.end\n";

const FULL_ADDER: &[u8] =
    b".model fa\n.inputs a b c\n.outputs s co\n.subckt ha a=a b=b s=t c=u\n.subckt ha a=t b=c s=s c=v\n.names u v co\n1- 1\n-1 1\n.end\n";

/// A half adder that uses itself.
const CIRCLE: &[u8] =
    b".model ha\n.inputs a b\n.outputs s c\n.names a b s\n10 1\n01 1\n.names a b c\n11 1\n.subckt ha a=a b=b s=z\n.end\n";

/// Whether the run on the words and the text has this exit and this line, and leaves `out` with these bytes,
/// or not at all.
fn ends(
    rt: &HostRuntime,
    line: &[u8],
    text: &[u8],
    exit: u8,
    said: &str,
    wanted: Option<&[u8]>,
) -> Result<bool, Fail> {
    let ended = run_on(rt.alloc(), line, text)?;
    let told = ended.status.to_string(rt.alloc())?;
    Ok(
        ended.status.exit() == exit
            && told.as_str() == said
            && holds(&ended.files, b"out", wanted)
            && ended.sink.bytes().is_empty(),
    )
}

#[test]
fn half_adder_as_an_and_circuit(rt: HostRuntime) -> Result<(), Fail> {
    let is_written = ends(
        &rt,
        b"aag ha.blif out",
        HALF_ADDER,
        0,
        "done",
        Some(CIRCUIT),
    )?;
    assert!(rt; is_written, "the circuit");
    Ok(())
}

#[test]
fn half_adder_from_its_and_circuit(rt: HostRuntime) -> Result<(), Fail> {
    let net = joined(rt.alloc(), READ_TABLES, READ_OUTPUTS)?;
    let is_written = ends(&rt, b"blif ha.blif out", CIRCUIT, 0, "done", Some(&net))?;
    assert!(rt; is_written, "the netlist");
    Ok(())
}

#[test]
fn latches_are_refused(rt: HostRuntime) -> Result<(), Fail> {
    let text = b"aag 1 0 1 0 0\n2 3\n";
    assert!(rt;
        ends(&rt, b"blif ha.blif out", text, 11, "aiger refusal 3", None)?,
        "latches"
    );
    Ok(())
}

#[test]
fn a_literal_above_the_greatest_is_refused(rt: HostRuntime) -> Result<(), Fail> {
    let text = b"aag 1 1 0 1 0\n2\n4\n";
    assert!(rt;
        ends(&rt, b"blif ha.blif out", text, 11, "aiger refusal 4", None)?,
        "a line"
    );
    Ok(())
}

#[test]
fn an_input_that_is_not_bound_is_refused(rt: HostRuntime) -> Result<(), Fail> {
    let text = joined(rt.alloc(), NOT_BOUND, HALF_ADDER)?;
    let is_told = ends(
        &rt,
        b"flat ha.blif out",
        &text,
        10,
        "hierarchy refusal 7",
        None,
    )?;
    assert!(rt; is_told, "an input that is not bound");
    Ok(())
}

#[test]
fn a_model_that_is_not_there_is_refused(rt: HostRuntime) -> Result<(), Fail> {
    let text = joined(rt.alloc(), NOT_THERE, HALF_ADDER)?;
    let is_told = ends(
        &rt,
        b"flat ha.blif out",
        &text,
        10,
        "hierarchy refusal 3",
        None,
    )?;
    assert!(rt; is_told, "a model that is not there");
    Ok(())
}

#[test]
fn a_model_that_uses_itself_is_refused(rt: HostRuntime) -> Result<(), Fail> {
    let text = joined(rt.alloc(), FULL_ADDER, CIRCLE)?;
    let is_told = ends(
        &rt,
        b"flat ha.blif out",
        &text,
        10,
        "hierarchy refusal 4",
        None,
    )?;
    assert!(rt; is_told, "a model that uses itself");
    Ok(())
}
