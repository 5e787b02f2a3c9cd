//! A bundle of the half adder within 1, checked whole and with one file changed: which clause is the first
//! that fails.
use crate::bundles::{ends_with_clause, shorter};
use memory_runs::bundles::whole_bundle;
use memory_runs::half_adder::{CHECK, HALF_ADDER, REPORT, VECTORS};
use memory_runs::held::{bytes_of, holds, joined};
use std::test::Fail;

#[test]
fn a_whole_bundle_is_verified(rt: HostRuntime) -> Result<(), Fail> {
    let whole = whole_bundle(rt.alloc())?;
    assert!(rt; holds(&whole, b"out.txt", Some(REPORT)));
    assert!(rt; holds(&whole, b"out.wit", Some(VECTORS)));
    assert!(rt; ends_with_clause(rt.alloc(), &whole, CHECK, b"other", b"", 0)?);
    assert!(rt;
        ends_with_clause(
            rt.alloc(),
            &whole,
            b"check abs 0 ha.blif out",
            b"other",
            b"",
            3
        )?
    );
    Ok(())
}

#[test]
fn a_bundle_of_another_version(rt: HostRuntime) -> Result<(), Fail> {
    let whole = whole_bundle(rt.alloc())?;
    let first: &[u8] =
        b"salsa 1\nmetric abs\nbound 1\nmaximum 1\nwitness 10\ntables 2 2\nliterals 6 1\nminimal yes\n";
    let third: &[u8] =
        b"salsa 3\nmetric abs\nbound 1\nmaximum 1\nwitness 10\ntables 2 2\nliterals 6 1\nminimal yes\n";
    assert!(rt; ends_with_clause(rt.alloc(), &whole, CHECK, b"out.txt", first, 0)?);
    assert!(rt; ends_with_clause(rt.alloc(), &whole, CHECK, b"out.txt", third, 3)?);
    Ok(())
}

#[test]
fn a_damaged_netlist_or_report_is_refuted(rt: HostRuntime) -> Result<(), Fail> {
    let whole = whole_bundle(rt.alloc())?;
    let ports: &[u8] = b".model ha\n.inputs b a\n.outputs s c\n.names s\n.names b c\n1 1\n.end\n";
    let above: &[u8] =
        b"salsa 2\nmetric abs\nbound 1\nmaximum 2\nwitness 10\ntables 2 2\nliterals 6 1\nminimal yes\n";
    assert!(rt; ends_with_clause(rt.alloc(), &whole, CHECK, b"out.blif", b"", 1)?);
    assert!(rt; ends_with_clause(rt.alloc(), &whole, CHECK, b"out.blif", ports, 2)?);
    assert!(rt; ends_with_clause(rt.alloc(), &whole, CHECK, b"out.txt", above, 4)?);
    assert!(rt; ends_with_clause(rt.alloc(), &whole, CHECK, b"out.blif", HALF_ADDER, 6)?);
    Ok(())
}

#[test]
fn damaged_vectors_are_refuted(rt: HostRuntime) -> Result<(), Fail> {
    let whole = whole_bundle(rt.alloc())?;
    assert!(rt;
        ends_with_clause(
            rt.alloc(),
            &whole,
            CHECK,
            b"out.wit",
            b"11\n00\n10\n01\n11\n",
            5
        )?
    );
    assert!(rt;
        ends_with_clause(
            rt.alloc(),
            &whole,
            CHECK,
            b"out.wit",
            b"10\n00\n10\n01\n11",
            5
        )?
    );
    assert!(rt; ends_with_clause(rt.alloc(), &whole, CHECK, b"out.wit", b"10\n", 10)?);
    Ok(())
}

#[test]
fn a_damaged_formula_or_log_is_refuted(rt: HostRuntime) -> Result<(), Fail> {
    let alloc = rt.alloc();
    let whole = whole_bundle(rt.alloc())?;
    let formula = joined(alloc, bytes_of(&whole, b"out.cnf"), b"x")?;
    let log = bytes_of(&whole, b"out.lrat");
    let cut = joined(alloc, shorter(log, b" 251 0\n".len()), b" 0\n")?;
    let further = joined(alloc, log, b"1000 1 0 0\n")?;
    assert!(rt; ends_with_clause(rt.alloc(), &whole, CHECK, b"out.cnf", &formula, 7)?);
    assert!(rt; ends_with_clause(rt.alloc(), &whole, CHECK, b"out.lrat", &cut, 8)?);
    assert!(rt; ends_with_clause(rt.alloc(), &whole, CHECK, b"out.lrat", &further, 8)?);
    Ok(())
}
