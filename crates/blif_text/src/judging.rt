//! What is wrong with a line, by the lines before it.
ghost use Rattle.std.specs.Prelude.{◌≡◌, None, Some, Err, if◌then◌else◌};
ghost use Rattle.blif_semantics.specs.Statements.{with_plane, table_by, wrong_row, wrong_by, wrong};
ghost use Rattle.blif_semantics.specs.Reading.{wrong_line};
ghost use Rattle.blif_text.specs.Refusals.{Tells};
ghost use Rattle.blif_text.specs.declared.judging.Wrong.TheVariants.{Command};
ghost use Rattle.blif_text.specs.declared.refusal.BlifRefusal.TheVariants.{OutOfMemory as NoMemory};
ghost use Rattle.text_words.specs.Slices.{texts};
ghost use Rattle.blif_text.specs.Places.{table_of, place_of, start, place_next, wrong_of, wrong_if};

use crate::refusal::BlifRefusal;
use crate::statements::{are_names, are_printable, arguments, first_word, kind_of, row_plane};
use blif_semantics::kind::Kind;
use file_core::word::Word;
use std::alloc::Global;

/// What is wrong with a line, but for its words.
#[derive(Clone, Copy, Debug, Drop, PartialEq, Eq)]
pub enum Wrong {
    BadByte,
    Command,
    StrayRow,
    BadRow,
    MixedPlane,
    SecondModel,
    AfterEnd,
    NamesEmpty,
    BadName,
}

/// A table whose rows may come next: the number of its pins, and its plane once it has a row.
#[derive(Clone, Copy, Debug, Drop, PartialEq, Eq)]
pub struct OpenTable {
    pins: usize,
    plane: Option<bool>,
}

/// What the judgement of a line needs of the lines before it.
#[derive(Clone, Copy, Debug, Drop, PartialEq, Eq)]
pub struct Place {
    had_model: bool,
    had_end: bool,
    table: Option<OpenTable>,
}

fn wrong_row(table: Option<OpenTable>, words: &[&[u8]]) -> Option<Wrong>
    ensures { wrong_if result (texts words.now) ≡ wrong_row (table_of table) (texts words.now) }
{
    let Some(table) = table else {
        return Some(Wrong::StrayRow);
    };
    match (row_plane(table.pins, words), table.plane) {
        (None, _) => Some(Wrong::BadRow),
        (Some(plane), Some(first)) if plane != first => Some(Wrong::MixedPlane),
        _ => None,
    }
}

/// `wrong`, unless `good`.
pub fn unless(good: bool, wrong: Wrong) -> Option<Wrong>
    ensures { result ≡ (if good then None else Some wrong) }
{
    if good { None } else { Some(wrong) }
}

/// The table after one row more: its first row sets its plane.
fn with_plane(table: Option<OpenTable>, words: &[&[u8]]) -> Option<OpenTable>
    ensures { table_of result ≡ with_plane (table_of table) (texts words.now) }
{
    let table = table?;
    let plane = match table.plane {
        None => row_plane(table.pins, words),
        Some(plane) => Some(plane),
    };
    Some(OpenTable {
        pins: table.pins,
        plane,
    })
}

/// The table to whose rows the line after this one may belong.
pub fn table_by(kind: Kind, words: &[&[u8]], before: Option<OpenTable>) -> Option<OpenTable>
    ensures { table_of result ≡ table_by kind (texts words.now) (table_of before) }
{
    match kind {
        Kind::Names => Some(OpenTable {
            pins: arguments(words).len().saturating_sub(1),
            plane: None,
        }),
        Kind::Row => with_plane(before, words),
        _ => None,
    }
}

impl Place {
    /// Before any line.
    pub fn start() -> Place
        ensures { place_of result ≡ start }
    {
        Place {
            had_model: false,
            had_end: false,
            table: None,
        }
    }

    /// The place behind lines with or without `.model` and `.end`, where `table` may get rows.
    pub fn new(had_model: bool, had_end: bool, table: Option<OpenTable>) -> Place
        ensures { place_of result
            ≡ record { had_model = had_model; had_end = had_end; table = table_of table } }
    {
        Place {
            had_model,
            had_end,
            table,
        }
    }

    /// The place behind one more line.
    pub fn next(&self, words: &[&[u8]]) -> Place
        ensures { place_of result ≡ place_next (place_of self.now) (texts words.now) }
    {
        let kind = kind_of(words);
        Place {
            had_model: kind == Kind::Model || self.had_model,
            had_end: kind == Kind::End || self.had_end,
            table: table_by(kind, words, self.table),
        }
    }

    /// What is wrong with a line of printable words that does not stand behind `.end`.
    pub fn wrong_by(&self, kind: Kind, words: &[&[u8]]) -> Option<Wrong>
        ensures { wrong_if result (texts words.now) ≡ wrong_by kind (place_of self.now) (texts words.now) }
    {
        let arguments = arguments(words);
        match kind {
            Kind::Model if self.had_model => Some(Wrong::SecondModel),
            Kind::Model => unless(arguments.len() == 1 && are_names(arguments), Wrong::BadName),
            Kind::Names if arguments.is_empty() => Some(Wrong::NamesEmpty),
            Kind::Inputs | Kind::Outputs | Kind::Names => {
                unless(are_names(arguments), Wrong::BadName)
            }
            Kind::End => None,
            Kind::Command => Some(Wrong::Command),
            Kind::Row => wrong_row(self.table, words),
        }
    }

    /// What is wrong with a line here.
    pub fn wrong(&self, words: &[&[u8]]) -> Option<Wrong>
        ensures { wrong_if result (texts words.now) ≡ wrong (place_of self.now) (texts words.now) }
    {
        if !are_printable(words) {
            Some(Wrong::BadByte)
        } else if self.had_end {
            Some(Wrong::AfterEnd)
        } else {
            self.wrong_by(kind_of(words), words)
        }
    }
}

/// The refusal of a line of these words. Only that of a command holds a word, and so takes memory.
pub fn refusal(alloc: Global, line: u64, wrong: Wrong, words: &[&[u8]]) -> BlifRefusal
    ensures tells { Tells result (Err (wrong_line line (wrong_of wrong (texts words.now)))) }
    ensures memory { result ≡ NoMemory → wrong ≡ Command }
{
    match wrong {
        Wrong::BadByte => BlifRefusal::BadByte { line },
        Wrong::Command => match Word::new(alloc, first_word(words)) {
            Ok(word) => BlifRefusal::Command { line, word },
            Err(_) => BlifRefusal::OutOfMemory,
        },
        Wrong::StrayRow => BlifRefusal::StrayRow { line },
        Wrong::BadRow => BlifRefusal::BadRow { line },
        Wrong::MixedPlane => BlifRefusal::MixedPlane { line },
        Wrong::SecondModel => BlifRefusal::SecondModel { line },
        Wrong::AfterEnd => BlifRefusal::AfterEnd { line },
        Wrong::NamesEmpty => BlifRefusal::NamesEmpty { line },
        Wrong::BadName => BlifRefusal::BadName { line },
    }
}
