//! A table of a net and its value. Source: BLIF's `.names`.
ghost use Rattle.std.specs.Prelude.{◌≡◌, ◌<◌, ◌^◌, [], true, false, length, slice_index_or, All, IfOk};
ghost use Rattle.std.specs.List.{list_any};
ghost use Rattle.semantics.specs.Net.{IsTable, is_literal, row_literals, table_literals};
ghost use Rattle.semantics.specs.Value.{mark_matches, row_matches, table_value};
ghost use Rattle.semantics.specs.Net.{constant_table};

use crate::items::{Duplicate, Items, RowList, Signal, SignalList};
use crate::mark::Mark;
use crate::name::Name;
use crate::row::Row;
use std::alloc::{AllocError, Global};
use std::marker::Model;

/// A table: a name, the signals of its pins, its rows, and the output plane of all its rows.
#[derive(Drop)]
pub struct Table {
    name: Name,
    pins: SignalList,
    rows: RowList,
    plane: bool,
}

impl Model for Table {
    ghost use Rattle.semantics.specs.Net.{TableValue, IsTable};

    ghost Value = { TableValue };

    ghost view = { λ a. record { name = a.name; pins = a.pins; rows = a.rows; plane = a.plane } };

    ghost invariant = { λ a. IsTable
        (record { name = a.name; pins = a.pins; rows = a.rows; plane = a.plane }) };
}

/// Whether a mark asks for a value.
pub fn is_literal(mark: Mark) -> bool
    ensures { result ≡ is_literal mark }
{
    mark != Mark::Dash
}

/// How many marks of a row ask for a value.
pub fn row_literals(marks: &[Mark]) -> usize
    ensures { result ≡ row_literals marks.now }
{
    marks.iter().filter(|mark| is_literal(**mark)).count()
}

/// Whether a pin's value is as the mark asks.
pub fn mark_matches(mark: Mark, bit: bool) -> bool
    ensures { result ≡ mark_matches mark bit }
{
    match mark {
        Mark::Zero => !bit,
        Mark::One => bit,
        Mark::Dash => true,
    }
}

/// Whether the value of each pin is as its mark asks; the pins are looked at up to the first whose value is
/// not.
pub fn row_matches(marks: &[Mark], pins: &[Signal], vals: &[bool]) -> bool
    requires widths { length marks.now ≡ length pins.now }
    requires pins_in { All (λ s. s < length vals.now) pins.now }
    ensures { result ≡ row_matches marks.now pins.now (λ s. slice_index_or vals.now s false) }
{
    for (i, mark) in marks.iter().enumerate() {
        if !mark_matches(*mark, vals[pins[i] as usize]) {
            return false;
        }
    }
    true
}

/// Whether some row matches; the rows are looked at up to the first that does.
fn some_row_matches(rows: &[Row], pins: &[Signal], vals: &[bool]) -> bool
    requires widths { All (λ marks. length marks ≡ length pins.now) rows.now }
    requires pins_in { All (λ s. s < length vals.now) pins.now }
    ensures { result
        ≡ list_any (λ marks. row_matches marks pins.now (λ s. slice_index_or vals.now s false)) rows.now }
{
    for row in rows {
        if row_matches(row.as_slice(), pins, vals) {
            return true;
        }
    }
    false
}

impl Table {
    /// The table of these parts. The call takes no memory.
    pub fn new(name: Name, pins: SignalList, rows: RowList, plane: bool) -> Table
        requires widths { All (λ marks. length marks ≡ length pins) rows }
        requires full { rows ≡ [] → plane ≡ true }
        ensures { result ≡ record { name = name; pins = pins; rows = rows; plane = plane } }
    {
        // A name is one by its type: the call brings that fact here.
        let _ = name.bytes();
        Table {
            name,
            pins,
            rows,
            plane,
        }
    }

    /// The name of the table and of its signal.
    pub fn name(&self) -> &Name
        ensures value { result.now ≡ self.now.name }
        ensures formed { IsTable self.now }
    {
        &self.name
    }

    /// The signals of the pins, in the order of a row's marks.
    pub fn pins(&self) -> &SignalList
        ensures value { result.now ≡ self.now.pins }
        ensures formed { IsTable self.now }
    {
        &self.pins
    }

    /// The rows, each with one mark for each pin.
    pub fn rows(&self) -> &RowList
        ensures value { result.now ≡ self.now.rows }
        ensures formed { IsTable self.now }
    {
        &self.rows
    }

    /// The value where some row matches.
    pub fn plane(&self) -> bool
        ensures value { result ≡ self.now.plane }
        ensures formed { IsTable self.now }
    {
        self.plane
    }

    /// How many marks ask for a value.
    pub fn literals(&self) -> u64
        requires { table_literals self.now < 2 ^ 63 }
        ensures { result ≡ table_literals self.now }
    {
        self.rows
            .as_slice()
            .iter()
            .map(|row| row_literals(row.as_slice()) as u64)
            .sum()
    }

    /// The table's value where signal `s` has the value `vals[s]`.
    pub fn value(&self, vals: &[bool]) -> bool
        requires { All (λ s. s < length vals.now) self.now.pins }
        ensures { result ≡ table_value self.now (λ s. slice_index_or vals.now s false) }
    {
        if some_row_matches(self.rows.as_slice(), self.pins.as_slice(), vals) {
            self.plane
        } else {
            !self.plane
        }
    }

    /// An equal table, on the same allocator.
    pub fn copy(&self) -> Result<Table, AllocError>
        ensures { IfOk result (λ t. t ≡ self.now) }
    {
        let name = self.name.copy()?;
        let pins = self.pins.copy()?;
        let rows = self.rows.copy()?;
        Ok(Table {
            name,
            pins,
            rows,
            plane: self.plane,
        })
    }
}

impl Duplicate for Table {
    fn duplicate(&self) -> Result<Table, AllocError> {
        self.copy()
    }
}

/// The table of a constant: no pins, plane 1, and one row without marks for the constant 1.
pub fn constant_table(alloc: Global, name: Name, value: bool) -> Result<Table, AllocError>
    ensures { IfOk result (λ t. t ≡ constant_table name value) }
{
    let mut rows = Items::new(alloc);
    if value {
        rows.push(Row::new(alloc))?;
    }
    Ok(Table::new(name, Items::new(alloc), rows, true))
}
