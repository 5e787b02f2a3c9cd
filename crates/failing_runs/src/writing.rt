//! Each call on the files of a job that writes a bundle fails in turn.
ghost use Rattle.std.specs.Prelude.{◌<◌};

use file_core::memory_files::MemFiles;
use memory_runs::half_adder::{HALF_ADDER, NAMES, SYNTHESIS};
use memory_runs::held::{bytes_of, holding, holds, holds_at_most};
use memory_runs::runs::{Run, run_failing, run_on};
use std::alloc::{AllocError, Global};
use std::test::Fail;

/// A job: its words, whether it reads a file, and the names of its bundle in the order in which they are
/// written.
#[derive(Clone, Copy)]
pub(crate) struct Writing<'a> {
    pub(crate) line: &'a [u8],
    reads: bool,
    pub(crate) names: [&'a [u8]; 5],
}

pub(crate) const OF_THE_HALF_ADDER: Writing = Writing {
    line: SYNTHESIS,
    reads: true,
    names: NAMES,
};

/// Its adder is the half adder.
pub(crate) const DEMONSTRATION: Writing = Writing {
    line: b"demo 1 1 1",
    reads: false,
    names: [
        b"demo.blif",
        b"demo.cnf",
        b"demo.lrat",
        b"demo.wit",
        b"demo.txt",
    ],
};

/// More calls than a run makes, if each one takes a byte.
const MOST_CALLS: u64 = 20_000;

/// The job's run beside the half adder, over files that work in chunks of `chunk` bytes; only the call with
/// the number `call` fails.
fn failing_at(alloc: Global, job: &Writing, chunk: usize, call: u64) -> Result<Run, AllocError>
    requires { 0 < chunk }
{
    let held = holding(alloc, HALF_ADDER)?;
    run_failing(alloc, job.line, held, chunk, call, 0)
}

/// Whether the input is as it was, and nothing is put.
fn is_quiet(ended: &Run) -> bool {
    holds(&ended.files, b"ha.blif", Some(HALF_ADDER)) && ended.sink.bytes().is_empty()
}

/// Whether none of the files is there.
fn none_is_there(files: &MemFiles, names: &[&[u8]; 5]) -> bool {
    for name in names {
        if files.bytes(name).is_some() {
            return false;
        }
    }
    true
}

/// Whether one of the files is not whole: it is a first part, or is not there. Those before it are whole, and
/// those after it are not there.
fn is_cut_short(files: &MemFiles, names: &[&[u8]; 5], whole: &MemFiles) -> bool {
    let mut is_cut = false;
    for name in names {
        let Some(text) = whole.bytes(name) else {
            return false;
        };
        if is_cut && files.bytes(name).is_some() || !holds_at_most(files, name, text) {
            return false;
        }
        is_cut = is_cut || !holds(files, name, Some(text));
    }
    is_cut
}

/// Whether the call failed as a call that writes: a write fault is answered, and the bundle is cut short.
fn is_left_by_a_write(ended: &Run, job: &Writing, whole: &MemFiles) -> bool {
    ended.status.exit() == 6 && is_quiet(ended) && is_cut_short(&ended.files, &job.names, whole)
}

/// The number of the first call whose fault is no read fault; each run in which an earlier call fails makes
/// nothing.
fn first_write(alloc: Global, job: &Writing, chunk: usize) -> Result<u64, AllocError>
    requires { 0 < chunk }
{
    for call in 1..MOST_CALLS {
        let ended = failing_at(alloc, job, chunk, call)?;
        if ended.status.exit() != 5
            || !is_quiet(&ended)
            || !none_is_there(&ended.files, &job.names)
        {
            return Ok(call);
        }
    }
    Ok(MOST_CALLS)
}

/// Whether the netlist is not there where the first call that writes fails, and is there where one of the
/// next two calls fails.
fn is_made_in_turn(
    alloc: Global,
    job: &Writing,
    chunk: usize,
    first: u64,
) -> Result<bool, AllocError>
    requires { 0 < chunk }
{
    for late in 0..3 {
        let ended = failing_at(alloc, job, chunk, first.saturating_add(late))?;
        if ended.files.bytes(job.names[0]).is_some() != (late > 0) {
            return Ok(false);
        }
    }
    Ok(true)
}

/// The number of the first call, from `from` on, that is not made, so that the run is done; None where a call
/// before it failed in another way than a call that writes.
fn first_done(
    alloc: Global,
    job: &Writing,
    whole: &MemFiles,
    chunk: usize,
    from: u64,
) -> Result<Option<u64>, AllocError>
    requires { 0 < chunk }
{
    for call in from..MOST_CALLS {
        let ended = failing_at(alloc, job, chunk, call)?;
        if ended.status.exit() == 0 {
            return Ok(Some(call));
        }
        if !is_left_by_a_write(&ended, job, whole) {
            return Ok(None);
        }
    }
    Ok(None)
}

/// Whether the run is done exactly where this call is not made: where the call before it fails, no more than
/// the last chunk is missing.
fn is_done_at(
    alloc: Global,
    job: &Writing,
    whole: &MemFiles,
    chunk: usize,
    done: u64,
) -> Result<bool, AllocError>
    requires { 0 < chunk }
{
    let ended = failing_at(alloc, job, chunk, done.saturating_sub(1))?;
    let written = bytes_of(&ended.files, job.names[4]).len();
    Ok(
        is_left_by_a_write(&ended, job, whole)
            && written.saturating_add(chunk) >= bytes_of(whole, job.names[4]).len()
            && holds(&ended.files, job.names[3], whole.bytes(job.names[3])),
    )
}

/// Whether each call from this one on that writes fails in turn, until the run is done.
fn writes_fail_in_turn(
    alloc: Global,
    job: &Writing,
    whole: &MemFiles,
    chunk: usize,
    from: u64,
) -> Result<bool, AllocError>
    requires { 0 < chunk }
{
    match first_done(alloc, job, whole, chunk, from)? {
        Some(done) => is_done_at(alloc, job, whole, chunk, done),
        None => Ok(false),
    }
}

/// Whether each call on the job's files, in chunks of `chunk` bytes, fails in turn: first the calls that
/// read, and then those that write.
fn files_fail_in_turn(alloc: Global, job: &Writing, chunk: usize) -> Result<bool, AllocError>
    requires { 0 < chunk }
{
    let whole = run_on(alloc, job.line, HALF_ADDER)?.files;
    let first = first_write(alloc, job, chunk)?;
    Ok(
        (first > 1) == job.reads
            && is_made_in_turn(alloc, job, chunk, first)?
            && writes_fail_in_turn(alloc, job, &whole, chunk, first)?,
    )
}

#[test]
fn each_call_of_a_synthesis_fails_in_turn(rt: HostRuntime) -> Result<(), Fail> {
    assert!(rt; files_fail_in_turn(rt.alloc(), &OF_THE_HALF_ADDER, 7)?);
    assert!(rt; files_fail_in_turn(rt.alloc(), &OF_THE_HALF_ADDER, 64)?);
    Ok(())
}

#[test]
fn each_byte_of_a_synthesis_fails_in_turn(rt: HostRuntime) -> Result<(), Fail> {
    assert!(rt; files_fail_in_turn(rt.alloc(), &OF_THE_HALF_ADDER, 1)?);
    Ok(())
}

#[test]
fn each_call_of_a_demonstration_fails_in_turn(rt: HostRuntime) -> Result<(), Fail> {
    assert!(rt; files_fail_in_turn(rt.alloc(), &DEMONSTRATION, 7)?);
    assert!(rt; files_fail_in_turn(rt.alloc(), &DEMONSTRATION, 64)?);
    Ok(())
}

#[test]
fn each_byte_of_a_demonstration_fails_in_turn(rt: HostRuntime) -> Result<(), Fail> {
    assert!(rt; files_fail_in_turn(rt.alloc(), &DEMONSTRATION, 1)?);
    Ok(())
}
