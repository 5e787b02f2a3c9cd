//! The lines of a text. Source: AIGER; that a CR may stand before the end of a line is this tool's own.
ghost use Rattle.std.specs.Prelude.{◌≡◌, ◌+◌, ◌≤◌, ◌==◌, length, map, IfOk};
ghost use Rattle.std.specs.List.{slice_split};
ghost use Rattle.aiger_semantics.specs.TextLines.{without_return, without_empty_end, text_lines};
ghost use Rattle.text_words.specs.Slices.{texts};

use std::alloc::{AllocError, Global};

/// A line without the CR at its end, if there is one.
fn without_return(line: &[u8]) -> &[u8]
    ensures { result.now ≡ without_return line.now }
{
    match line {
        [front @ .., b'\r'] => front,
        _ => line,
    }
}

/// What stands between the LFs.
fn parts<'a>(alloc: Global, text: &'a [u8]) -> Result<Vec<&'a [u8]>, AllocError>
    ensures { IfOk result (λ v. texts v.items ≡ slice_split (λ b. b == 10) text.now) }
{
    text.split(|b| *b == b'\n').collect(alloc)
}

/// The parts but for the last one, if that is empty.
fn without_empty_end<'a>(mut parts: Vec<&'a [u8]>) -> Vec<&'a [u8]>
    ensures { texts result.items ≡ without_empty_end (texts parts.entry.items) }
{
    if let [.., last] = parts.as_slice() {
        if last.is_empty() {
            parts.pop();
        }
    }
    parts
}

/// Each of these lines without a CR at its end.
fn without_returns<'a>(alloc: Global, lines: &[&'a [u8]]) -> Result<Vec<&'a [u8]>, AllocError>
    ensures { IfOk result (λ v. texts v.items ≡ map without_return (texts lines.now)) }
{
    let mut cut = Vec::new(alloc);
    for line in lines {
        cut.push(without_return(line))?;
    }
    Ok(cut)
}

/// The lines of a text, each without a CR at its end. LF ends each line; the last line needs no LF.
pub(crate) fn text_lines<'a>(alloc: Global, text: &'a [u8]) -> Result<Vec<&'a [u8]>, AllocError>
    ensures { IfOk result (λ v. texts v.items ≡ text_lines text.now) }
{
    let ended = without_empty_end(parts(alloc, text)?);
    without_returns(alloc, &ended)
}
