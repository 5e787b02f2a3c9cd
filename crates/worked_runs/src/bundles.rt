//! What a run over the bundle of the half adder within 1, with one file changed, answers.
use file_core::memory_files::MemFiles;
use job_answers::status::Status;
use memory_runs::bundles::with_file;
use memory_runs::runs::run_over;
use std::alloc::{AllocError, Global};

/// A text without the last `bytes` bytes.
pub(crate) fn shorter(text: &[u8], bytes: usize) -> &[u8] {
    &text[..text.len().saturating_sub(bytes)]
}

/// The number of the clause that is refuted, 0 for `Verified`; None for any other answer.
fn refuted_clause(status: &Status) -> Option<u8> {
    match status {
        Status::Verified => Some(0),
        Status::Refuted(number) => Some(*number),
        _ => None,
    }
}

/// Whether a run on the words over the bundle, where one file has another text, is refuted by clause
/// `clause`, or verified for 0, and puts nothing.
pub(crate) fn ends_with_clause(
    alloc: Global,
    whole: &MemFiles,
    line: &[u8],
    name: &[u8],
    text: &[u8],
    clause: u8,
) -> Result<bool, AllocError> {
    let held = with_file(alloc, whole, name, text)?;
    let ended = run_over(alloc, line, held)?;
    Ok(refuted_clause(&ended.status) == Some(clause) && ended.sink.bytes().is_empty())
}
