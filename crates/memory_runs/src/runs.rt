//! One run on the words of a line, and what it leaves.
ghost use Rattle.std.specs.Prelude.{◌<◌};

use crate::held::{holding, words};
use file_core::lists::{CallList, FileList};
use file_core::memory_files::MemFiles;
use file_core::memory_sink::MemSink;
use job_answers::status::Status;
use jobs::run::run;
use std::alloc::{AllocError, Global};

/// What a run leaves.
#[derive(Drop)]
pub struct Run {
    pub status: Status,
    pub files: MemFiles,
    pub sink: MemSink,
}

/// The list of the one number `call`, or the empty list for 0.
fn failing_at(alloc: Global, call: u64) -> Result<CallList, AllocError> {
    let mut calls = CallList::new(alloc);
    if call > 0 {
        calls.push(call)?;
    }
    Ok(calls)
}

/// One run over files that hold these at first and work in chunks of `chunk` bytes, as the sink does. The
/// call with each number fails; the number 0 belongs to no call.
pub fn run_failing(
    alloc: Global,
    line: &[u8],
    held: FileList,
    chunk: usize,
    file_call: u64,
    sink_call: u64,
) -> Result<Run, AllocError>
    requires { 0 < chunk }
{
    let mut files = MemFiles::new(held, failing_at(alloc, file_call)?, chunk);
    let mut sink = MemSink::new(alloc, failing_at(alloc, sink_call)?, chunk);
    let status = run(alloc, &words(alloc, line)?, &mut files, &mut sink).status;
    Ok(Run {
        status,
        files,
        sink,
    })
}

/// One run over files that hold these at first, in which no call fails.
pub fn run_over(alloc: Global, line: &[u8], held: FileList) -> Result<Run, AllocError> {
    run_failing(alloc, line, held, 64, 0, 0)
}

/// One run, as [`run_over`], over files that hold `ha.blif` alone, with this text.
pub fn run_on(alloc: Global, line: &[u8], text: &[u8]) -> Result<Run, AllocError> {
    run_over(alloc, line, holding(alloc, text)?)
}

/// A further run over the files that an earlier one left.
pub fn run_after(alloc: Global, line: &[u8], earlier: Run) -> Result<Run, AllocError> {
    let mut files = earlier.files;
    let mut sink = MemSink::new(alloc, CallList::new(alloc), 64);
    let status = run(alloc, &words(alloc, line)?, &mut files, &mut sink).status;
    Ok(Run {
        status,
        files,
        sink,
    })
}
