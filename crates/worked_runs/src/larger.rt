//! Netlists with more inputs than vectors can be tried: an adder of 32 inputs, and a conjunction of 16.
use memory_runs::held::{begins, holds, joined};
use memory_runs::runs::{run_after, run_on};
use std::alloc::{AllocError, Global};
use std::fmt::Write;
use std::test::Fail;

/// The adder's first lines, in the style of another tool: a comment, and lists that go on in a further line.
const ADDER_INPUTS: &str =
    "# Benchmark \"adder16\"\n.model adder16\n.inputs a0 a1 a2 a3 a4 a5 a6 a7 a8 a9 a10 a11 a12 a13 a14 a15 \\\n";

const ADDER_OTHER_INPUTS: &str = " b0 b1 b2 b3 b4 b5 b6 b7 b8 b9 b10 b11 b12 b13 b14 b15\n";

const ADDER_OUTPUTS: &str =
    ".outputs s0 s1 s2 s3 s4 s5 s6 s7 s8 s9 s10 s11 s12 s13 s14 \\\n s15 c16\n";

/// The adder of two words of 16 bits: a half adder, and a full adder for each further bit.
fn adder(alloc: Global) -> Result<String, AllocError> {
    let mut text = format!(in alloc; "{ADDER_INPUTS}{ADDER_OTHER_INPUTS}{ADDER_OUTPUTS}")?;
    write!(text, ".names a0 b0 s0\n10 1\n01 1\n.names a0 b0 c1\n11 1\n")?;
    for bit in 1..16 {
        let carry = bit + 1;
        write!(
            text,
            ".names a{bit} b{bit} c{bit} s{bit}\n100 1\n010 1\n001 1\n111 1\n"
        )?;
        write!(
            text,
            ".names a{bit} b{bit} c{bit} c{carry}\n11- 1\n1-1 1\n-11 1\n"
        )?;
    }
    write!(text, ".end\n")?;
    Ok(text)
}

// A bundle is verified only where the maximum of its report is within the bound.
#[test]
fn an_adder_in_another_style(rt: HostRuntime) -> Result<(), Fail> {
    let alloc = rt.alloc();
    let text = adder(alloc)?;
    let done = run_on(alloc, b"synth abs 255 1000 ha.blif out", text.as_bytes())?;
    assert_eq!(rt; done.status.exit(), 0);
    assert!(rt;
        begins(
            &done.files,
            b"out.txt",
            b"salsa 2\nmetric abs\nbound 255\nmaximum "
        )
    );
    let checked = run_after(alloc, b"check abs 255 ha.blif out", done)?;
    let line = checked.status.to_string(alloc)?;
    assert_eq!(rt; line.as_str(), "verified");
    Ok(())
}

const CONJUNCTION_PORTS: &[u8] =
    b".model conj\n.inputs x0 x1 x2 x3 x4 x5 x6 x7 x8 x9 x10 x11 x12 x13 x14 x15\n.outputs y\n";

const CONJUNCTION_TABLE: &[u8] =
    b".names x0 x1 x2 x3 x4 x5 x6 x7 x8 x9 x10 x11 x12 x13 x14 x15 y\n1111111111111111 1\n.end\n";

const CONJUNCTION_REPORT: &[u8] =
    b"salsa 2\nmetric ham\nbound 0\nmaximum 0\nwitness 0000000000000000\ntables 1 1\nliterals 16 16\nminimal yes\n";

#[test]
fn a_conjunction_of_sixteen(rt: HostRuntime) -> Result<(), Fail> {
    let alloc = rt.alloc();
    let text = joined(alloc, CONJUNCTION_PORTS, CONJUNCTION_TABLE)?;
    let done = run_on(alloc, b"synth ham 0 1000 ha.blif out", &text)?;
    assert_eq!(rt; done.status.exit(), 0);
    assert!(rt; holds(&done.files, b"out.blif", Some(&text)));
    assert!(rt; done.sink.bytes() == CONJUNCTION_REPORT);
    let checked = run_after(alloc, b"check ham 0 ha.blif out", done)?;
    let line = checked.status.to_string(alloc)?;
    assert_eq!(rt; line.as_str(), "verified");
    Ok(())
}
