//! A table that is edited in place.
ghost use Rattle.std.specs.Prelude.{◌≡◌, ◌<◌, ◌==◌, ℕ, true, not, [], length, map, slice_index, All, IfOk};
ghost use Rattle.std.specs.List.{filter, list_any, remove};
ghost use Rattle.semantics.specs.Net.{IsTable, constant_table};
ghost use Rattle.semantics.specs.Value.{mark_matches};
ghost use Rattle.semantics.specs.Renamed.{renamed, redirect};
ghost use Rattle.net_tidy.specs.Places.{number_at};
ghost use Rattle.chain_semantics.specs.TidyRules.{has, mark_at, clash, pin_at, without_pin, with_pin_fixed};
ghost use Rattle.chain_semantics.specs.TidyRules.{with_pins_joined, with_marks_joined, with_marks_turned};
ghost use Rattle.chain_semantics.specs.TidyRules.{is_inverter, reading_past};

use crate::marks::{Marked, Marks, clash, mark_at};
use crate::rules::has;
use net_core::items::{Items, RowList, Signal};
use net_core::name::Name;
use net_core::row::Row;
use net_core::table::{Table, mark_matches};
use std::alloc::{AllocError, Global};
use std::marker::Model;

/// The parts of a table, of which nothing is required.
#[derive(Drop)]
pub(crate) struct TableDraft {
    name: Name,
    pins: Vec<Signal>,
    rows: Vec<Marks>,
    plane: bool,
}

impl Model for TableDraft {
    ghost use Rattle.semantics.specs.Net.{TableValue};

    ghost Value = { TableValue };

    ghost view = { λ a. record { name = a.name; pins = a.pins.items; rows = a.rows.items; plane = a.plane } };
}

/// The marks of these rows.
fn copied_rows(alloc: Global, rows: &[Row]) -> Result<Vec<Marks>, AllocError>
    ensures { IfOk result (λ copies. copies.items ≡ rows.now) }
{
    let mut copies = Vec::new(alloc);
    for row in rows {
        copies.push(Marks::from_slice(alloc, row.as_slice())?)?;
    }
    Ok(copies)
}

/// The rows with these marks, as a list.
fn row_list(alloc: Global, rows: &[Marks]) -> Result<RowList, AllocError>
    ensures { IfOk result (λ list. list ≡ rows.now) }
{
    let mut list = Items::new(alloc);
    for row in rows {
        list.push(Row::from_slice(alloc, row.marks())?)?;
    }
    Ok(list)
}

/// Takes out the rows that ask the pin at `q` for the other value.
fn keep_rows(rows: &mut Vec<Marks>, q: usize, value: bool)
    ensures { rows.new.items ≡ filter (λ marks. mark_matches (mark_at marks q) value) rows.old.items }
{
    rows.retain(|row| mark_matches(mark_at(row.marks(), q), value));
}

/// Takes out the rows that ask the pins at `p` and `q` for both values.
fn keep_agreeing(rows: &mut Vec<Marks>, p: usize, q: usize)
    ensures { rows.new.items ≡ filter (λ marks. not (clash (mark_at marks p) (mark_at marks q)))
        rows.old.items }
{
    rows.retain(|row| !clash(mark_at(row.marks(), p), mark_at(row.marks(), q)));
}

/// Takes the mark at `q` out of each row.
fn remove_marks(rows: &mut [Marks], q: usize)
    requires { All (λ marks. q < length marks) rows.old }
    ensures { rows.new ≡ map (λ marks. remove marks q) rows.old }
{
    for row in rows.iter_mut() {
        row.remove(q);
    }
}

/// In each row, puts the mark at `q` in the place of a dash at `p`.
fn join_marks(rows: &mut [Marks], p: usize, q: usize)
    requires { All (λ marks. p < length marks) rows.old }
    ensures { rows.new ≡ map (with_marks_joined p q) rows.old }
{
    for row in rows.iter_mut() {
        row.join(p, q);
    }
}

/// In each row, turns the marks of the pins that read signal `s`.
fn turn_rows(rows: &mut [Marks], s: Signal, pins: &[Signal])
    requires { All (λ marks. length marks ≡ length pins.now) rows.old }
    ensures { rows.new ≡ map (with_marks_turned s pins.now) rows.old }
{
    for row in rows.iter_mut() {
        row.turn(s, pins);
    }
}

/// The signal of a pin: `to` in the place of `from`, and any other signal as it is.
fn redirected(pin: Signal, from: Signal, to: Signal) -> Signal
    ensures { result ≡ redirect from to pin }
{
    if pin == from { to } else { pin }
}

/// The number that stands at a signal, and 0 past the end.
pub(crate) fn number_at(numbers: &[u32], s: Signal) -> u32
    ensures { result ≡ number_at numbers.now s }
{
    match numbers.get(s as usize) {
        Some(number) => *number,
        None => 0,
    }
}

/// Puts signal `to` in the place of signal `from` among the pins.
fn redirect(pins: &mut [Signal], from: Signal, to: Signal)
    ensures { pins.new ≡ map (redirect from to) pins.old }
{
    for pin in pins.iter_mut() {
        *pin = redirected(*pin, from, to);
    }
}

/// Puts in the place of each signal its number in `numbers`.
fn renumber(signals: &mut [Signal], numbers: &[u32])
    ensures { signals.new ≡ map (number_at numbers.now) signals.old }
{
    for signal in signals.iter_mut() {
        *signal = number_at(numbers, *signal);
    }
}

impl TableDraft {
    /// A copy of a table.
    pub(crate) fn from_table(alloc: Global, table: &Table) -> Result<TableDraft, AllocError>
        ensures { IfOk result (λ d. d ≡ table.now) }
    {
        Ok(TableDraft {
            name: table.name().copy()?,
            pins: Vec::from_slice(alloc, table.pins().as_slice())?,
            rows: copied_rows(alloc, table.rows().as_slice())?,
            plane: table.plane(),
        })
    }

    pub(crate) fn pins(&self) -> &[Signal]
        ensures { result.now ≡ self.now.pins }
    {
        self.pins.as_slice()
    }

    pub(crate) fn rows(&self) -> &[Marks]
        ensures { result.now ≡ self.now.rows }
    {
        self.rows.as_slice()
    }

    /// Whether a signal is among the pins.
    pub(crate) fn reads(&self, s: Signal) -> bool
        ensures { result ≡ has self.now.pins s }
    {
        has(&self.pins, s)
    }

    pub(crate) fn plane(&self) -> bool
        ensures { result ≡ self.now.plane }
    {
        self.plane
    }

    /// Whether some row lets the pin at `q` have this value.
    pub(crate) fn allows(&self, q: usize, value: bool) -> bool
        ensures { result ≡ list_any (λ marks. mark_matches (mark_at marks q) value) self.now.rows }
    {
        self.rows
            .iter()
            .any(|row| mark_matches(mark_at(row.marks(), q), value))
    }

    /// Takes out the rows that ask the pin at `q` for the other value.
    pub(crate) fn keep_rows(&mut self, q: usize, value: bool)
        ensures { self.new
            ≡ record self.old {
              rows
                  = filter (λ marks. mark_matches (mark_at marks q) value) self.old.rows;
            } }
    {
        keep_rows(&mut self.rows, q, value);
    }

    /// Whether some row asks the pins at `p` and `q` for no two values that differ.
    pub(crate) fn agrees(&self, p: usize, q: usize) -> bool
        ensures { result ≡ list_any (λ marks. not (clash (mark_at marks p) (mark_at marks q))) self.now.rows }
    {
        self.rows.iter().any(|row| !clash(mark_at(row.marks(), p), mark_at(row.marks(), q)))
    }

    /// Takes out the rows that ask the pins at `p` and `q` for both values, and joins the marks of the other
    /// rows at `p`.
    pub(crate) fn join_rows(&mut self, p: usize, q: usize)
        requires within { p < length self.old.pins }
        requires widths { All (λ marks. length marks ≡ length self.old.pins) self.old.rows }
        ensures { self.new ≡ record self.old {
          rows = map (with_marks_joined p q)
              (filter (λ marks. not (clash (mark_at marks p) (mark_at marks q))) self.old.rows);
        } }
    {
        keep_agreeing(&mut self.rows, p, q);
        join_marks(&mut self.rows, p, q);
    }

    /// Takes out the pin at `q`, with its column.
    pub(crate) fn remove_pin(&mut self, q: usize)
        requires within { q < length self.old.pins }
        requires widths { All (λ marks. length marks ≡ length self.old.pins) self.old.rows }
        ensures { self.new ≡ without_pin q self.old }
    {
        remove_marks(&mut self.rows, q);
        self.pins.remove(q);
    }

    /// Makes the table the constant of this value. For the constant 1 its first row becomes the row without
    /// marks.
    pub(crate) fn make_constant(&mut self, value: bool)
        requires { value ≡ true → 0 < length self.old.rows }
        ensures { self.new ≡ constant_table self.old.name value }
    {
        self.pins.clear();
        self.plane = true;
        if value {
            self.rows.truncate(1);
            self.rows[0].clear();
        } else {
            self.rows.clear();
        }
    }

    /// Whether the mark at the first pin of each row differs from the plane.
    pub(crate) fn inverts(&self) -> bool
        ensures { result ≡ is_inverter self.now }
    {
        let plane = self.plane;
        self.rows
            .iter()
            .all(|row| !mark_matches(mark_at(row.marks(), 0), plane))
    }

    /// Reads signal `to` in the place of `from`, where `to` has the value of `from`, or the opposite where
    /// `inverted` is set; then the marks of those pins are turned. Returns whether the table read `from`.
    #[tactic(auto, using(crate::proofs::Passing::past_aside))]
    pub(crate) fn read_past(&mut self, from: Signal, to: Signal, inverted: bool) -> bool
        requires { All (λ marks. length marks ≡ length self.old.pins) self.old.rows }
        ensures reads { result ≡ has self.old.pins from }
        ensures past { self.new ≡ reading_past from to inverted self.old }
    {
        if !self.reads(from) {
            return false;
        }
        if inverted {
            turn_rows(&mut self.rows, from, &self.pins);
        }
        redirect(&mut self.pins, from, to);
        true
    }

    /// The table of these parts, with a copy of its name.
    pub(crate) fn to_table(&self) -> Result<Table, AllocError>
        requires { IsTable self.now }
        ensures { IfOk result (λ t. t ≡ self.now) }
    {
        let alloc = *self.pins.allocator();
        let name = self.name.copy()?;
        let pins = Items::from_slice(alloc, &self.pins)?;
        let rows = row_list(alloc, &self.rows)?;
        Ok(Table::new(name, pins, rows, self.plane))
    }

    /// Puts in the place of each pin its number in `numbers`.
    pub(crate) fn renumber(&mut self, numbers: &[u32])
        ensures { self.new ≡ renamed (number_at numbers.now) self.old }
    {
        renumber(&mut self.pins, numbers);
    }
}
