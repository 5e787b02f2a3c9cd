//! A table whose pins are names. Source: BLIF's `.names` and its rows.
ghost use Rattle.std.specs.Prelude.{◌≡◌, ◌-◌, [], Result, None, IfOk, OnOk, IfErr, map, take, length};
ghost use Rattle.blif_semantics.specs.Tables.{mark_of, marks_of, is_one, last_word, named, with_row};
ghost use Rattle.semantics.specs.Net.{NetValue};
ghost use Rattle.blif_semantics.specs.Reading.{Refusal, undriven, unless_refused};
ghost use Rattle.blif_semantics.specs.Named.{IsNamedTable, with_signals};
ghost use Rattle.blif_text.specs.Refusals.{Tells};
ghost use Rattle.blif_text.specs.Names.{first_unknown};
ghost use Rattle.blif_text.specs.KeptLines.{table_without_rows};
ghost use Rattle.text_words.specs.Slices.{texts};

use crate::names::Names;
use crate::refusal::BlifRefusal;
use net_core::items::{Items, RowList};
use net_core::mark::Mark;
use net_core::name::Name;
use net_core::row::Row;
use net_core::table::Table;
use std::alloc::{AllocError, Global};
use std::marker::Model;

/// A table whose rows are being read. No row is wrong, since no line was.
#[derive(Drop)]
pub struct NamedTable<'a> {
    name: &'a [u8],
    pins: Vec<&'a [u8]>,
    rows: RowList,
    plane: bool,
}

impl<'a> Model for NamedTable<'a> {
    ghost use Rattle.blif_semantics.specs.Tables.{NamedTable};
    ghost use Rattle.text_words.specs.Slices.{texts};

    ghost Value = { NamedTable };

    ghost view = { λ a. record {
      name = a.name.now;
      pins = texts a.pins.items;
      rows = a.rows;
      plane = a.plane;
    } };
}

fn mark_of(byte: u8) -> Mark
    ensures { result ≡ mark_of byte }
{
    match byte {
        b'0' => Mark::Zero,
        b'1' => Mark::One,
        _ => Mark::Dash,
    }
}

fn marks_of_word(alloc: Global, word: &[u8]) -> Result<Row, AllocError>
    ensures { IfOk result (λ row. row ≡ map mark_of word.now) }
{
    let mut row = Row::new(alloc);
    for byte in word {
        row.push(mark_of(*byte))?;
    }
    Ok(row)
}

/// The marks of a row: none if it has no word but the plane.
fn marks_of(alloc: Global, words: &[&[u8]]) -> Result<Row, AllocError>
    ensures { IfOk result (λ row. row ≡ marks_of (texts words.now)) }
{
    match words {
        [marks, _] => Ok(marks_of_word(alloc, marks)?),
        _ => Ok(Row::new(alloc)),
    }
}

fn is_one(word: &[u8]) -> bool
    ensures { result ≡ is_one word.now }
{
    matches!(word, [b'1'])
}

/// The last word, or the empty one.
fn last_word<'a>(words: &[&'a [u8]]) -> &'a [u8]
    ensures { result.now ≡ last_word (texts words.now) }
{
    match words {
        [.., word] => word,
        [] => &[],
    }
}

/// The words before the last.
#[tactic(auto, using(crate::proofs::Views::of_texts))]
fn front<'w, 'a>(words: &'w [&'a [u8]]) -> &'w [&'a [u8]]
    ensures { texts result.now ≡ take (length words.now - 1) (texts words.now) }
{
    match words {
        [front @ .., _] => front,
        [] => &[],
    }
}

impl<'a> NamedTable<'a> {
    /// A table without rows, with the names of its pins and its own name.
    pub fn new(alloc: Global, words: &[&'a [u8]]) -> Result<NamedTable<'a>, AllocError>
        ensures { IfOk result (λ t. t ≡ named (texts words.now)) }
    {
        let pins = Vec::from_slice(alloc, front(words))?;
        Ok(NamedTable {
            name: last_word(words),
            pins,
            rows: Items::new(alloc),
            plane: true,
        })
    }

    /// Adds a row.
    pub fn push(&mut self, words: &[&[u8]]) -> Result<(), AllocError>
        ensures { OnOk result (self.new ≡ with_row self.old (texts words.now)) }
    {
        self.rows.push(marks_of(*self.pins.allocator(), words)?)?;
        self.plane = is_one(last_word(words));
        Ok(())
    }

    /// The table without its rows.
    pub fn without_rows(self) -> NamedTable<'a>
        ensures { result ≡ table_without_rows self.entry }
    {
        let alloc = *self.pins.allocator();
        NamedTable {
            name: self.name,
            pins: self.pins,
            rows: Items::new(alloc),
            plane: true,
        }
    }

    /// The name of the signal that the table drives.
    pub fn name(&self) -> &'a [u8]
        ensures { result.now ≡ self.now.name }
    {
        self.name
    }

    /// The names of the pins, in the order of a row's marks.
    pub fn pins(&self) -> &[&'a [u8]]
        ensures { texts result.now ≡ self.now.pins }
    {
        &self.pins
    }

    /// The rows, with a mark for each pin.
    pub fn rows(&self) -> &RowList
        ensures { result.now ≡ self.now.rows }
    {
        &self.rows
    }

    /// The output plane of all rows.
    pub fn plane(&self) -> bool
        ensures { result ≡ self.now.plane }
    {
        self.plane
    }

    /// The table with signals in the place of names, or the refusal of its first pin whose name is no
    /// signal's.
    pub fn numbered(self, names: &Names) -> Result<Table, BlifRefusal>
        requires { IsNamedTable self }
        ensures ok { IfOk result (λ t. t ≡ with_signals names.now self.entry) }
        ensures known { OnOk result (first_unknown names.now self.entry.pins ≡ None) }
        ensures err { IfErr result (λ told. (rest : Result NetValue Refusal)
            → Tells told (unless_refused (first_unknown names.now self.entry.pins) undriven rest)) }
    {
        let NamedTable {
            name,
            pins,
            rows,
            plane,
        } = self;
        let signals = names.numbers(&pins)?;
        let name = Name::known(*pins.allocator(), name)?;
        Ok(Table::new(name, signals, rows, plane))
    }
}
