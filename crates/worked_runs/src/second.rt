//! Second netlists against the half adder: certified, refined, and refused.
use job_answers::status::Status;
use memory_runs::half_adder::HALF_ADDER;
use memory_runs::held::{add_file, holding, holds};
use memory_runs::runs::{Run, run_after, run_over};
use std::alloc::{AllocError, Global};
use std::test::Fail;

/// The half adder with an OR in the place of its sum, and without a carry.
const OR: &[u8] =
    b".model or\n.inputs a b\n.outputs s c\n.names a b s\n1- 1\n-1 1\n.names c\n.end\n";

/// The half adder with a carry that reads the sum too, and so one literal more.
const LARGER: &[u8] =
    b".model ha\n.inputs a b\n.outputs s c\n.names a b s\n10 1\n01 1\n.names a b s c\n110 1\n.end\n";

/// One run over the half adder and this second netlist.
fn run_beside(alloc: Global, line: &[u8], second: &[u8]) -> Result<Run, AllocError> {
    let mut held = holding(alloc, HALF_ADDER)?;
    add_file(alloc, &mut held, b"second.blif", second)?;
    run_over(alloc, line, held)
}

/// Whether a run ended with this line and left no bundle.
fn is_refused(alloc: Global, run: &Run, exit: u8, line: &str) -> Result<bool, AllocError> {
    let said = run.status.to_string(alloc)?;
    Ok(
        run.status.exit() == exit
            && said.as_str() == line
            && run.sink.bytes().is_empty()
            && holds(&run.files, b"out.blif", None),
    )
}

#[test]
fn a_second_netlist_is_certified_as_it_is(rt: HostRuntime) -> Result<(), Fail> {
    let done = run_beside(rt.alloc(), b"certify abs 1 1 ha.blif second.blif out", OR)?;
    let report =
        b"salsa 2\nmetric abs\nbound 1\nmaximum 1\nwitness 11\ntables 2 2\nliterals 6 2\nminimal no\n";
    assert_eq!(rt; done.status.exit(), 0);
    assert!(rt; done.sink.bytes() == report.as_slice());
    assert!(rt; holds(&done.files, b"out.blif", Some(OR)));
    assert!(rt; holds(&done.files, b"out.wit", Some(b"11\n")));
    let confirmed = run_after(rt.alloc(), b"confirm abs 1 ha.blif out", done)?;
    assert!(rt; matches!(confirmed.status, Status::Verified));
    let checked = run_after(rt.alloc(), b"check abs 1 ha.blif out", confirmed)?;
    assert!(rt; matches!(checked.status, Status::Verified));
    Ok(())
}

#[test]
fn a_larger_net_is_confirmed_and_not_checked(rt: HostRuntime) -> Result<(), Fail> {
    let done = run_beside(
        rt.alloc(),
        b"certify abs 0 1 ha.blif second.blif out",
        LARGER,
    )?;
    assert_eq!(rt; done.status.exit(), 0);
    let confirmed = run_after(rt.alloc(), b"confirm abs 0 ha.blif out", done)?;
    assert!(rt; matches!(confirmed.status, Status::Verified));
    let checked = run_after(rt.alloc(), b"check abs 0 ha.blif out", confirmed)?;
    assert!(rt; matches!(checked.status, Status::Refuted(9)));
    Ok(())
}

#[test]
fn a_second_netlist_is_refined(rt: HostRuntime) -> Result<(), Fail> {
    let done = run_beside(rt.alloc(), b"refine abs 1 1 ha.blif second.blif out", OR)?;
    let report =
        b"salsa 2\nmetric abs\nbound 1\nmaximum 1\nwitness 00\ntables 2 2\nliterals 6 0\nminimal yes\n";
    assert_eq!(rt; done.status.exit(), 0);
    assert!(rt; done.sink.bytes() == report.as_slice());
    let checked = run_after(rt.alloc(), b"check abs 1 ha.blif out", done)?;
    assert!(rt; matches!(checked.status, Status::Verified));
    Ok(())
}

#[test]
fn other_second_netlists_are_refused(rt: HostRuntime) -> Result<(), Fail> {
    let line = b"certify abs 0 1 ha.blif second.blif out";
    let above = run_beside(rt.alloc(), line, OR)?;
    assert!(rt; is_refused(rt.alloc(), &above, 14, "error above the bound at 11")?);
    let ports = run_beside(
        rt.alloc(),
        line,
        b".inputs b a\n.outputs s c\n.names s\n.names c\n",
    )?;
    assert!(rt; is_refused(rt.alloc(), &ports, 13, "other ports")?);
    let text = run_beside(rt.alloc(), line, b".inputs a b\n.outputs s c\n.names s\n")?;
    assert!(rt; is_refused(rt.alloc(), &text, 12, "second netlist: c is not driven")?);
    Ok(())
}
