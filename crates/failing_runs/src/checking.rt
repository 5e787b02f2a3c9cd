//! Each call on the files of a check fails in turn.
ghost use Rattle.std.specs.Prelude.{◌<◌};

use file_core::memory_files::MemFiles;
use memory_runs::bundles::{are_whole, whole_bundle, with_file};
use memory_runs::half_adder::{CHECK, HALF_ADDER, NAMES};
use memory_runs::held::{bytes_of, holds};
use memory_runs::runs::{Run, run_failing};
use std::alloc::{AllocError, Global};
use std::test::Fail;

/// More calls than a check makes, if each one takes a byte.
const MOST_CALLS: u64 = 20_000;

/// A check of the bundle, over files that work in chunks of `chunk` bytes; only the call with the number
/// `call` fails.
fn failing_at(alloc: Global, whole: &MemFiles, chunk: usize, call: u64) -> Result<Run, AllocError>
    requires { 0 < chunk }
{
    let held = with_file(alloc, whole, b"ha.blif", HALF_ADDER)?;
    run_failing(alloc, CHECK, held, chunk, call, 0)
}

/// Whether all files are as they were, and nothing is put.
fn is_quiet(ended: &Run, whole: &MemFiles) -> bool {
    are_whole(&ended.files, &NAMES, whole)
        && holds(&ended.files, b"ha.blif", Some(HALF_ADDER))
        && ended.sink.bytes().is_empty()
}

/// The number of the first call that a check does not make, so that the bundle is verified; None where a call
/// before it does not answer a read fault, or changes a file.
fn first_done(alloc: Global, whole: &MemFiles, chunk: usize) -> Result<Option<u64>, AllocError>
    requires { 0 < chunk }
{
    for call in 1..MOST_CALLS {
        let ended = failing_at(alloc, whole, chunk, call)?;
        let is_done = ended.status.exit() == 0;
        if !is_quiet(&ended, whole) || !is_done && ended.status.exit() != 5 {
            return Ok(None);
        }
        if is_done {
            return Ok(Some(call));
        }
    }
    Ok(None)
}

/// The number of bytes that a check reads.
fn bytes_read(whole: &MemFiles) -> usize {
    let mut bytes = HALF_ADDER.len();
    for name in NAMES {
        bytes = bytes.saturating_add(bytes_of(whole, name).len());
    }
    bytes
}

/// Whether each call on files, in chunks of `chunk` bytes, fails in turn, until the bundle is verified, and
/// these calls are enough to read all bytes.
fn files_fail_in_turn(alloc: Global, chunk: usize) -> Result<bool, AllocError>
    requires { 0 < chunk }
{
    let whole = whole_bundle(alloc)?;
    match first_done(alloc, &whole, chunk)? {
        Some(done) => Ok(done.saturating_mul(chunk as u64) > bytes_read(&whole) as u64),
        None => Ok(false),
    }
}

#[test]
fn each_call_of_a_check_fails_in_turn(rt: HostRuntime) -> Result<(), Fail> {
    assert!(rt; files_fail_in_turn(rt.alloc(), 7)?);
    assert!(rt; files_fail_in_turn(rt.alloc(), 64)?);
    Ok(())
}

#[test]
fn each_byte_of_a_check_fails_in_turn(rt: HostRuntime) -> Result<(), Fail> {
    assert!(rt; files_fail_in_turn(rt.alloc(), 1)?);
    Ok(())
}
