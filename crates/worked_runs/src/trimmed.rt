//! Trimmed logs of the bundle of the half adder within 1.
use crate::bundles::{ends_with_clause, shorter};
use file_core::memory_files::MemFiles;
use memory_runs::bundles::{whole_bundle, with_file};
use memory_runs::half_adder::CHECK;
use memory_runs::held::{bytes_of, holds, joined};
use memory_runs::runs::run_over;
use std::test::Fail;

/// The words of a trim of the bundle's log.
const TRIM: &[u8] = b"trim abs 1 ha.blif out short";

/// What a trim of the bundle with this log makes. It changes no other file, and puts nothing.
fn trimmed(rt: &HostRuntime, whole: &MemFiles, log: &[u8]) -> Result<Vec<u8>, Fail> {
    let held = with_file(rt.alloc(), whole, b"out.lrat", log)?;
    let done = run_over(rt.alloc(), TRIM, held)?;
    let is_done = done.status.exit() == 0 && done.sink.bytes().is_empty();
    match done.files.bytes(b"short") {
        Some(short) if is_done && holds(&done.files, b"out.lrat", Some(log)) => {
            Ok(Vec::from_slice(rt.alloc(), short)?)
        }
        _ => Err(Fail::new("the log is not trimmed")),
    }
}

#[test]
fn a_trimmed_log_is_verified(rt: HostRuntime) -> Result<(), Fail> {
    let whole = whole_bundle(rt.alloc())?;
    let short = trimmed(&rt, &whole, bytes_of(&whole, b"out.lrat"))?;
    assert!(rt; ends_with_clause(rt.alloc(), &whole, CHECK, b"out.lrat", &short, 0)?);
    Ok(())
}

#[test]
fn a_trimmed_log_stays_as_it_is(rt: HostRuntime) -> Result<(), Fail> {
    let whole = whole_bundle(rt.alloc())?;
    let short = trimmed(&rt, &whole, bytes_of(&whole, b"out.lrat"))?;
    let again = trimmed(&rt, &whole, &short)?;
    assert!(rt; again.as_slice() == short.as_slice());
    Ok(())
}

// The empty clause is derived twice, and then an id is removed that is not held. Neither is needed.
#[test]
fn what_nothing_names_is_left_out(rt: HostRuntime) -> Result<(), Fail> {
    let whole = whole_bundle(rt.alloc())?;
    let log = bytes_of(&whole, b"out.lrat");
    let short = trimmed(&rt, &whole, log)?;
    let idle = joined(rt.alloc(), log, b"253 0 252 0\n9 d 999999999 0\n")?;
    assert!(rt; ends_with_clause(rt.alloc(), &whole, CHECK, b"out.lrat", &idle, 0)?);
    let again = trimmed(&rt, &whole, &idle)?;
    assert!(rt; again.as_slice() == short.as_slice());
    Ok(())
}

#[test]
fn a_log_that_refutes_nothing_is_not_trimmed(rt: HostRuntime) -> Result<(), Fail> {
    let whole = whole_bundle(rt.alloc())?;
    let cut = shorter(bytes_of(&whole, b"out.lrat"), 3);
    let held = with_file(rt.alloc(), &whole, b"out.lrat", cut)?;
    let ended = run_over(rt.alloc(), TRIM, held)?;
    assert_eq!(rt; ended.status.exit(), 7);
    assert!(rt; holds(&ended.files, b"short", None));
    Ok(())
}
