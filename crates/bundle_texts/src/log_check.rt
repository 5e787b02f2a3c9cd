//! A log is checked as its text is read, so that the text is never held.
ghost use Rattle.std.specs.Prelude.{◌≡◌, ℕ, ◌+◌, ◌≤◌, ◌<◌, ◌^◌, [], ◌++◌, List, length, false, None, IsTrue};
ghost use Rattle.std.specs.Prelude.{IfOk};
ghost use Rattle.semantics.specs.Texts.{Bytes};
ghost use Rattle.proof_semantics.specs.Clauses.{Clause};
ghost use Rattle.file_reading.specs.Reading.{IsAllWanted};
ghost use Rattle.cnf_core.specs.LratReads.{read_items};
ghost use Rattle.bundle_texts.specs.LogTold.{AreJudged, IsInStep, SoFar, IsSoundSoFar};
ghost use Rattle.bundle_texts.specs.LogJudged.{HasTaken, IsLogIn};

use crate::item_sink::ItemSink;
use crate::judge::Judge;
use cnf_core::cnf::Cnf;
use cnf_core::lrat_reader::LratReader;
use file_reading::intake::Intake;
use lrat_check::checker::Checker;
use proof_semantics::lrat_refusal::LratRefusal;
use std::alloc::{AllocError, Global};
use std::marker::Model;

/// The length below which the text of a log stays; no file is read so far.
const LONGEST: usize = 1 << 62;

/// Whether the whole items that the reader has not given yet are accepted.
fn accepts_all<L: ItemSink>(
    reader: &mut LratReader,
    judge: &mut Judge<L>,
) -> Result<bool, AllocError>
    requires { reader.old.given ≤ length (read_items reader.old) }
    ensures reading { (given : ℕ) × (reader.new ≡ record reader.old { given = given }) }
    ensures all_given { IfOk result (λ accepted. IsTrue accepted
        → reader.new.given ≡ length (read_items reader.old)) }
    ensures judged { IfOk result (λ accepted. (clauses : List Clause)
        → IsInStep (HasTaken L.holds) clauses reader.old judge.old
        → AreJudged (HasTaken L.holds) accepted clauses (read_items reader.old) judge.new) }
{
    while let Some(item) = reader.next() {
        if !judge.accepts(item)? {
            return Ok(false);
        }
    }
    Ok(true)
}

/// Takes the next piece of the text, and returns whether the text may still refute the formula.
fn goes_on<L: ItemSink>(
    reader: &mut LratReader,
    judge: &mut Judge<L>,
    piece: &[u8],
) -> Result<bool, AllocError>
    requires going { reader.old.finished ≡ false }
    requires calm { reader.old.refused ≡ None }
    requires given { reader.old.given ≤ length (read_items reader.old) }
    requires size { length reader.old.text + length piece.now < 2 ^ 63 }
    ensures text { IfOk result (λ _. reader.new.text ≡ reader.old.text ++ piece.now) }
    ensures judged { IfOk result (λ more. (clauses : List Clause)
        → IsSoundSoFar (HasTaken L.holds) clauses reader.old judge.old
        → SoFar (HasTaken L.holds) more clauses reader.new judge.new) }
{
    match reader.feed(piece) {
        Ok(()) => accepts_all(reader, judge),
        Err(refusal) => match refusal {
            LratRefusal::OutOfMemory => Err(AllocError),
            _ => Ok(false),
        },
    }
}

/// Ends the text, and returns what is kept of it where it refutes the formula.
fn refuting<L: ItemSink>(reader: &mut LratReader, judge: Judge<L>) -> Result<Option<L>, AllocError>
    requires going { reader.old.finished ≡ false }
    requires given { reader.old.given ≤ length (read_items reader.old) }
    requires size { length reader.old.text < 2 ^ 63 }
    ensures { IfOk result (λ kept. (clauses : List Clause)
        → IsSoundSoFar (HasTaken L.holds) clauses reader.old judge
        → IsLogIn L.holds clauses kept reader.old.text) }
{
    let mut judge = judge;
    match reader.finish() {
        Ok(()) => {
            if !accepts_all(reader, &mut judge)? {
                return Ok(None);
            }
            Ok(judge.finish())
        }
        Err(refusal) => match refusal {
            LratRefusal::OutOfMemory => Err(AllocError),
            _ => Ok(None),
        },
    }
}

/// How the log stands so far.
#[derive(Clone, Copy, Debug)]
enum Standing {
    /// All its items were accepted, and at most this number of bytes may come next.
    Accepted(usize),
    /// It refutes nothing, however it goes on.
    Refused,
    /// There was no memory for a piece of it.
    Lost,
}

/// Callers see the formula, the text so far, and the number of bytes that are wanted next. The memory grows
/// with what the checker holds, the items of one piece, and what the sink keeps.
#[derive(Drop)]
pub struct LogCheck<'a, L: ItemSink> {
    formula: &'a Cnf,
    reader: LratReader,
    judge: Judge<L>,
    standing: Standing,
}

impl<'a, L: ItemSink> Model for LogCheck<'a, L> {
    ghost use Rattle.bundle_texts.specs.TextCheck.{TextCheck};

    ghost Value = { TextCheck };

    ghost use Rattle.bundle_texts.specs.LogStanding.{check_view, Stands};

    ghost view = { check_view };

    ghost invariant = { Stands L.holds };
}

impl<'a, L: ItemSink> LogCheck<'a, L> {
    /// At the start of a log over the formula.
    pub fn new(alloc: Global, formula: &'a Cnf) -> Result<LogCheck<'a, L>, AllocError>
        ensures { IfOk result (λ check. check ≡ record { formula = formula.now; text = []; room = LONGEST }) }
    {
        Ok(LogCheck {
            formula,
            reader: LratReader::new(alloc),
            judge: Judge {
                checker: Checker::new(alloc, formula)?,
                kept: L::empty(alloc),
            },
            standing: Standing::Accepted(LONGEST),
        })
    }

    /// What is kept of the text, once all wanted bytes were taken, if the text is a log that refutes the
    /// formula.
    pub fn finish(self) -> Result<Option<L>, AllocError>
        ensures { IfOk result (λ kept. (content : Bytes) → IsAllWanted content self.entry.text self.entry.room
            → IsLogIn L.holds self.entry.formula.clauses kept content) }
    {
        let LogCheck {
            mut reader,
            judge,
            standing,
            ..
        } = self;
        match standing {
            Standing::Accepted(room) if room > 0 => refuting(&mut reader, judge),
            Standing::Refused => Ok(None),
            _ => Err(AllocError),
        }
    }
}

impl<L: ItemSink> Intake for LogCheck<'_, L> {
    /// The formula that is to be refuted.
    type Aim = Cnf;

    ghost aim = { λ a. a.formula };

    ghost text = { λ a. a.text };

    ghost room = { λ a. a.room };

    ghost use Rattle.std.specs.Prelude.{true};

    ghost takes_memory = { true };

    fn wanted(&self) -> usize {
        match self.standing {
            Standing::Accepted(room) => room,
            _ => 0,
        }
    }

    fn take(&mut self, piece: &[u8]) -> Result<(), AllocError> {
        let Standing::Accepted(room) = self.standing else {
            return Ok(());
        };
        match goes_on(&mut self.reader, &mut self.judge, piece) {
            Ok(true) => self.standing = Standing::Accepted(room - piece.len()),
            Ok(false) => self.standing = Standing::Refused,
            Err(error) => {
                self.standing = Standing::Lost;
                return Err(error);
            }
        }
        Ok(())
    }
}
