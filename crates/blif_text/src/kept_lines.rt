//! The lines of which a net is made, judged as they are read. A text may have far more rows than a net may:
//! past the limit they are judged and not kept.
ghost use Rattle.std.specs.Prelude.{◌≡◌, [], ◌∷◌, List, map, false, not, nat_le, None};
ghost use Rattle.std.specs.Prelude.{Result, Ok, IfOk, OnOk, IfErr, IfSome};
ghost use Rattle.semantics.specs.Net.{NetValue};
ghost use Rattle.blif_semantics.specs.Lines.{LogicalLine as LineValue};
ghost use Rattle.blif_semantics.specs.Lines.{line_before, without_comment, logical_lines};
ghost use Rattle.blif_semantics.specs.Reading.{Refusal};
ghost use Rattle.blif_text.specs.LogicalLines.{after_begun, has_words, with_words, statement_of};
ghost use Rattle.blif_text.specs.KeptLines.{IsRightLine, kept, nothing_kept, outcome, unless_wrong};
ghost use Rattle.blif_text.specs.Places.{place_of, first_wrong_in};
ghost use Rattle.blif_text.specs.Refusals.{Tells};

use crate::joining::{LogicalLine, gone_on};
use crate::judging::{Place, refusal};
use crate::lines::{before_backslash, without_comment};
use crate::refusal::BlifRefusal;
use crate::statements::kind_of;
use blif_semantics::kind::Kind;
use semantics::limits::MOST_ROWS;
use std::alloc::{AllocError, Global};
use std::marker::Model;
use text_words::words::words_of;

/// A line that is not wrong: the place behind it, and whether it is a row.
#[derive(Clone, Copy, Debug, Drop, PartialEq, Eq)]
struct RightLine {
    next: Place,
    is_row: bool,
}

/// What a line is at its place, unless it has no words, or the refusal of a line that is wrong.
fn judge(alloc: Global, place: &Place, line: &LogicalLine) -> Result<Option<RightLine>, BlifRefusal>
    ensures none { result ≡ Ok None → has_words line.now ≡ false }
    ensures some { IfOk result (λ o. IfSome o (λ right.
        IsRightLine (place_of place.now) line.now (place_of right.next) right.is_row)) }
    ensures err { IfErr result (λ told. (rest : List LineValue) (answer : Result NetValue Refusal)
        → Tells told (unless_wrong
        (first_wrong_in (place_of place.now) (map statement_of (with_words (line.now ∷ rest)))) answer)) }
{
    let words = words_of(alloc, line.bytes())?;
    if words.is_empty() {
        return Ok(None);
    }
    if let Some(wrong) = place.wrong(&words) {
        return Err(refusal(alloc, line.number(), wrong, &words));
    }
    Ok(Some(RightLine {
        next: place.next(&words),
        is_row: kind_of(&words) == Kind::Row,
    }))
}

/// The lines that are kept, the place behind all lines so far, and the number of rows that are kept: one more
/// than a net may have where there are too many.
#[derive(Drop)]
pub struct KeptLines<'a> {
    place: Place,
    rows: usize,
    lines: Vec<LogicalLine<'a>>,
}

impl<'a> Model for KeptLines<'a> {
    ghost use Rattle.blif_text.specs.KeptLines.{KeptLines};
    ghost use Rattle.blif_text.specs.Places.{place_of};

    ghost Value = { KeptLines };

    ghost view = { λ a. record { place = place_of a.place; rows = a.rows; lines = a.lines.items } };
}

impl<'a> KeptLines<'a> {
    /// Before any line. The call takes no memory.
    fn new(alloc: Global) -> KeptLines<'a>
        ensures { result ≡ nothing_kept }
    {
        KeptLines {
            place: Place::start(),
            rows: 0,
            lines: Vec::new(alloc),
        }
    }

    /// The lines that are kept.
    pub fn lines(&self) -> &[LogicalLine<'a>]
        ensures { result.now ≡ self.now.lines }
    {
        &self.lines
    }

    /// Whether there were more rows than a net may have.
    pub fn has_many_rows(&self) -> bool
        ensures { result ≡ not (nat_le self.now.rows MOST_ROWS) }
    {
        self.rows > MOST_ROWS
    }

    /// Keeps a line that is not wrong, unless it is a row past the first one that is too many.
    fn keep(&mut self, line: LogicalLine<'a>, right: RightLine) -> Result<(), AllocError>
        ensures { OnOk result (self.new ≡ kept self.old line.entry (place_of right.next) right.is_row) }
    {
        self.place = right.next;
        if right.is_row {
            if self.rows > MOST_ROWS {
                return Ok(());
            }
            self.rows += 1;
        }
        self.lines.push(line)?;
        Ok(())
    }

    /// Takes a line, or refuses it.
    fn add(&mut self, line: LogicalLine<'a>) -> Result<(), BlifRefusal>
        ensures ok { OnOk result ((rest : List LineValue)
            → outcome self.new rest ≡ outcome self.old (line.entry ∷ rest)) }
        ensures err { IfErr result (λ told. (rest : List LineValue) (answer : Result NetValue Refusal)
            → Tells told (unless_wrong (outcome self.old (line.entry ∷ rest)).wrong answer)) }
    {
        let alloc = *self.lines.allocator();
        let Some(right) = judge(alloc, &self.place, &line)? else {
            return Ok(());
        };
        self.keep(line, right)?;
        Ok(())
    }

    /// Takes a physical line, and returns the line that stays begun, if one does.
    fn add_physical(
        &mut self,
        begun: Option<LogicalLine<'a>>,
        number: u64,
        line: &'a [u8],
    ) -> Result<Option<LogicalLine<'a>>, BlifRefusal>
        ensures ok { IfOk result (λ left. (rest : List LineValue)
            → outcome self.new (after_begun left rest) ≡ outcome self.old
            (after_begun begun.entry (line_before number (without_comment line.now) rest))) }
        ensures err { IfErr result (λ told. (rest : List LineValue) (answer : Result NetValue Refusal)
            → Tells told (unless_wrong (outcome self.old
            (after_begun begun.entry (line_before number (without_comment line.now) rest))).wrong answer)) }
    {
        let alloc = *self.lines.allocator();
        let line = without_comment(line);
        match before_backslash(line) {
            Some(front) => Ok(Some(gone_on(alloc, begun, number, front)?)),
            None => {
                self.add(gone_on(alloc, begun, number, line)?)?;
                Ok(None)
            }
        }
    }

    /// Takes the line that the last physical one leaves begun.
    fn end(&mut self, begun: Option<LogicalLine<'a>>) -> Result<(), BlifRefusal>
        ensures ok { OnOk result (outcome self.new [] ≡ outcome self.old (after_begun begun.entry [])) }
        ensures err { IfErr result (λ told. (answer : Result NetValue Refusal)
            → Tells told (unless_wrong (outcome self.old (after_begun begun.entry [])).wrong answer)) }
    {
        match begun {
            Some(line) => self.add(line),
            None => Ok(()),
        }
    }
}

/// The logical lines of a text that are kept, in one pass over its bytes, or the refusal of the first wrong
/// line.
#[tactic(auto, unfolding(blif_semantics::specs::Lines::logical_lines))]
pub fn kept_lines<'a>(alloc: Global, text: &'a [u8]) -> Result<KeptLines<'a>, BlifRefusal>
    ensures ok { IfOk result (λ k. outcome k [] ≡ outcome nothing_kept (logical_lines text.now)) }
    ensures err { IfErr result (λ told. (answer : Result NetValue Refusal)
        → Tells told (unless_wrong (outcome nothing_kept (logical_lines text.now)).wrong answer)) }
{
    let mut kept = KeptLines::new(alloc);
    let mut begun = None;
    let mut number = 1;
    for line in text.split(|b| *b == b'\n') {
        begun = kept.add_physical(begun, number, line)?;
        number += 1;
    }
    kept.end(begun)?;
    Ok(kept)
}
