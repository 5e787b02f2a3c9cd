//! The lines of a text that have words, each with its number and its words. Source: BLIF.
ghost use Rattle.std.specs.Prelude.{◌≡◌, ◌⊎◌, ◌<◌, ◌≤◌, List, length, map, IfOk, OnOk, IfErr};
ghost use Rattle.blif_semantics.specs.Lines.{logical_lines, statements};
ghost use Rattle.text_words.specs.Slices.{texts};
ghost use Rattle.blif_text.specs.LogicalLines.{statement_of};
ghost use Rattle.blif_text.specs.declared.refusal.BlifRefusal.TheVariants.{TextLong as Long};
ghost use Rattle.blif_text.specs.declared.refusal.BlifRefusal.TheVariants.{OutOfMemory as NoMemory};

use crate::joining::{LogicalLine, lines_with_words};
use crate::refusal::BlifRefusal;
use file_core::word::Word;
use net_core::items::Items;
use std::alloc::{AllocError, Global};
use std::marker::Model;
use text_words::words::words_of;

/// The words of a line.
pub type WordList = Items<Word>;

/// A line with words: the number of its first physical line, from 1, and the words between its blanks.
#[derive(Drop)]
pub struct LogLine {
    pub line: u64,
    pub words: WordList,
}

impl Model for LogLine {
    ghost use Rattle.blif_semantics.specs.Lines.{Statement};

    ghost Value = { Statement };

    ghost view = { λ a. record { line = a.line; words = a.words } };
}

/// The logical lines of a text, in their order.
pub type LineList = Items<LogLine>;

fn word_list(alloc: Global, words: &[&[u8]]) -> Result<WordList, AllocError>
    ensures { IfOk result (λ list. list ≡ texts words.now) }
{
    let mut list = Items::new(alloc);
    for word in words {
        list.push(Word::new(alloc, word)?)?;
    }
    Ok(list)
}

fn log_line(alloc: Global, line: &LogicalLine) -> Result<LogLine, AllocError>
    ensures { IfOk result (λ l. l ≡ statement_of line.now) }
{
    let words = words_of(alloc, line.bytes())?;
    Ok(LogLine {
        line: line.number(),
        words: word_list(alloc, &words)?,
    })
}

fn line_list(alloc: Global, lines: &[LogicalLine]) -> Result<LineList, AllocError>
    ensures { IfOk result (λ list. list ≡ map statement_of lines.now) }
{
    let mut list = Items::new(alloc);
    for line in lines {
        list.push(log_line(alloc, line)?)?;
    }
    Ok(list)
}

/// The lines with words of a text of at most `limit` bytes. The call refuses by `TextLong` and for want of
/// memory alone.
pub fn split_lines(alloc: Global, text: &[u8], limit: u64) -> Result<LineList, BlifRefusal>
    ensures lines { IfOk result (λ list. list ≡ statements (logical_lines text.now)) }
    ensures short { OnOk result (length text.now ≤ limit) }
    ensures err { IfErr result (λ told. ((told ≡ Long) × (limit < length text.now))
        ⊎ ((told ≡ NoMemory) × (length text.now ≤ limit))) }
{
    if text.len() as u64 > limit {
        return Err(BlifRefusal::TextLong);
    }
    let lines = lines_with_words(alloc, text)?;
    let list = line_list(alloc, &lines)?;
    Ok(list)
}
