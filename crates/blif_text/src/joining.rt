//! Logical lines: physical lines, joined where a backslash says so. Source: BLIF.
ghost use Rattle.std.specs.Prelude.{◌≡◌, List, ◌++◌, ◌∷◌, [], None, Some, IfOk, OnOk};
ghost use Rattle.blif_semantics.specs.Lines.{LogicalLine as LineValue, line_before, without_comment};
ghost use Rattle.blif_semantics.specs.Lines.{logical_lines};
ghost use Rattle.blif_text.specs.LogicalLines.{gone_on, after_begun, with_words};

use crate::lines::{before_backslash, has_words, without_comment};
use std::alloc::{AllocError, Global};
use std::marker::Model;

/// The bytes of a line, which are a slice of the text unless physical lines were joined, and the number of
/// the first physical line.
#[derive(Drop)]
pub struct LogicalLine<'a> {
    number: u64,
    joined: Vec<u8>,
    slice: &'a [u8],
}

impl<'a> Model for LogicalLine<'a> {
    ghost use Rattle.std.specs.Prelude.{◌≡◌, ◌<◌, ◌++◌, [], length};
    ghost use Rattle.blif_semantics.specs.Lines.{LogicalLine};

    ghost Value = { LogicalLine };

    ghost view = { λ a. record { number = a.number; bytes = a.joined.items ++ a.slice.now } };

    ghost invariant = { λ a. 0 < length a.joined.items → a.slice.now ≡ [] };
}

impl<'a> LogicalLine<'a> {
    /// A line to which nothing is joined yet. The call takes no memory.
    fn new(alloc: Global, number: u64, slice: &'a [u8]) -> LogicalLine<'a>
        ensures { result ≡ record { number = number; bytes = slice.now } }
    {
        LogicalLine {
            number,
            joined: Vec::new(alloc),
            slice,
        }
    }

    /// The number of its first physical line, from 1.
    pub fn number(&self) -> u64
        ensures { result ≡ self.now.number }
    {
        self.number
    }

    /// Its bytes, of all its physical lines together.
    pub fn bytes(&self) -> &[u8]
        ensures { result.now ≡ self.now.bytes }
    {
        if self.joined.is_empty() {
            self.slice
        } else {
            self.joined.as_slice()
        }
    }

    /// This line with the bytes appended.
    fn with(self, bytes: &'a [u8]) -> Result<LogicalLine<'a>, AllocError>
        ensures { IfOk result (λ l. l ≡ record self.entry { bytes = self.entry.bytes ++ bytes.now }) }
    {
        let LogicalLine {
            number,
            mut joined,
            slice,
        } = self;
        joined.extend_from_slice(slice)?;
        joined.extend_from_slice(bytes)?;
        Ok(LogicalLine {
            number,
            joined,
            slice: &[],
        })
    }
}

/// The line that was begun, with these bytes appended; or, where none was begun, a new line of these bytes.
pub fn gone_on<'a>(
    alloc: Global,
    begun: Option<LogicalLine<'a>>,
    number: u64,
    bytes: &'a [u8],
) -> Result<LogicalLine<'a>, AllocError>
    ensures { IfOk result (λ l. l ≡ gone_on begun.entry number bytes.now) }
{
    match begun {
        Some(begun) => begun.with(bytes),
        None => Ok(LogicalLine::new(alloc, number, bytes)),
    }
}

/// Adds a line if it has words; else drops it.
fn keep<'a>(lines: &mut Vec<LogicalLine<'a>>, line: LogicalLine<'a>) -> Result<(), AllocError>
    ensures { OnOk result ((rest : List LineValue)
        → lines.new.items ++ with_words rest ≡ lines.old.items ++ with_words (line.entry ∷ rest)) }
{
    if has_words(line.bytes()) {
        lines.push(line)?;
    }
    Ok(())
}

/// Adds a physical line to the lines so far, and returns the line that stays begun, if one does.
fn add_line<'a>(
    alloc: Global,
    lines: &mut Vec<LogicalLine<'a>>,
    begun: Option<LogicalLine<'a>>,
    number: u64,
    line: &'a [u8],
) -> Result<Option<LogicalLine<'a>>, AllocError>
    ensures { IfOk result (λ left. (rest : List LineValue)
        → lines.new.items ++ with_words (after_begun left rest)
        ≡ lines.old.items ++ with_words
        (after_begun begun.entry (line_before number (without_comment line.now) rest))) }
{
    let line = without_comment(line);
    match before_backslash(line) {
        Some(front) => Ok(Some(gone_on(alloc, begun, number, front)?)),
        None => {
            keep(lines, gone_on(alloc, begun, number, line)?)?;
            Ok(None)
        }
    }
}

/// The lines, and behind them the line that the last one leaves begun.
fn with_begun<'a>(
    mut lines: Vec<LogicalLine<'a>>,
    begun: Option<LogicalLine<'a>>,
) -> Result<Vec<LogicalLine<'a>>, AllocError>
    ensures { IfOk result (λ v. v.items ≡ lines.entry.items ++ with_words (after_begun begun.entry [])) }
{
    let Some(line) = begun else {
        return Ok(lines);
    };
    keep(&mut lines, line)?;
    Ok(lines)
}

/// The logical lines of a text that have words, in one pass over its bytes.
#[tactic(auto, unfolding(blif_semantics::specs::Lines::logical_lines))]
pub fn lines_with_words<'a>(
    alloc: Global,
    text: &'a [u8],
) -> Result<Vec<LogicalLine<'a>>, AllocError>
    ensures { IfOk result (λ v. v.items ≡ with_words (logical_lines text.now)) }
{
    let mut lines = Vec::new(alloc);
    let mut begun = None;
    let mut number = 1;
    for line in text.split(|b| *b == b'\n') {
        begun = add_line(alloc, &mut lines, begun, number, line)?;
        number += 1;
    }
    with_begun(lines, begun)
}
