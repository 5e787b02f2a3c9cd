//! The hints of an input vector. Unit propagation along the hints gives each table on which the output
//! depends at the vector its value there.
//!
//! The hints are found from the last to the first. The output is needed; a needed table depends on the row
//! that matches, or on one false literal of each row; and the signals of those literals are needed before it.
//! A table that is not needed has no hint.
ghost use Rattle.std.specs.Prelude.{◌≡◌, ℕ, ◌+◌, ◌-◌, ◌<◌, ◌≤◌, ◌^◌, false, if◌then◌else◌, [], ◌∷◌, ◌++◌};
ghost use Rattle.std.specs.Prelude.{length, reverse, slice_index, slice_index_or, slice_set, sum_by, All};
ghost use Rattle.std.specs.Prelude.{IfOk, OnOk};
ghost use Rattle.semantics.specs.Net.{input_count, table_count, signal_count, table_at, row_literals};
ghost use Rattle.semantics.specs.Order.{IsOrderOf};
ghost use Rattle.proof_semantics.specs.Variables.{table_clause_count};
ghost use Rattle.case_tree.specs.Cases.{row_hint, match_hints, failing_hints, has_match, asked_by_row};
ghost use Rattle.case_tree.specs.Cases.{asked_by_failing, asked_by_match, asked_by_rows, hints_from};
ghost use Rattle.case_tree.specs.Cases.{asked_by_table, first_ids, hints_before, ordered_hints};
ghost use Rattle.case_tree.specs.Rooms.{FitsRoom};

use net_core::items::{Items, Signal};
use net_core::mark::Mark;
use net_core::net::Net;
use net_core::row::Row;
use net_core::table::{Table, is_literal, mark_matches, row_literals, row_matches};
use proof_parts::log::Ids;
use std::alloc::{AllocError, Global};

/// The clause that decides a row, among the row's clauses, which have the ids from `next` on.
fn row_hint(next: u64, marks: &[Mark], pins: &[Signal], values: &[bool]) -> u64
    requires widths { length marks.now ≡ length pins.now }
    requires pins_in { All (λ s. s < length values.now) pins.now }
    requires ids { next < 2 ^ 63 }
    ensures { result ≡ row_hint next marks.now pins.now (λ s. slice_index_or values.now s false) }
{
    let mut hint = next;
    for (i, mark) in marks.iter().enumerate() {
        if !mark_matches(*mark, values[pins[i] as usize]) {
            return hint;
        }
        if is_literal(*mark) {
            hint += 1;
        }
    }
    hint
}

/// Marks as needed the signals of which a row asks a value.
fn ask_row(marks: &[Mark], pins: &[Signal], needed: &mut [bool])
    requires widths { length marks.now ≡ length pins.now }
    requires pins_in { All (λ s. s < length needed.old) pins.now }
    ensures { needed.new ≡ asked_by_row marks.now pins.now needed.old }
{
    for (i, mark) in marks.iter().enumerate() {
        if is_literal(*mark) {
            needed[pins[i] as usize] = true;
        }
    }
}

/// Marks as needed the signal of a row's first literal that is false.
fn ask_failing(marks: &[Mark], pins: &[Signal], values: &[bool], needed: &mut [bool])
    requires widths { length marks.now ≡ length pins.now }
    requires pins_in { All (λ s. s < length values.now) pins.now }
    requires flags { length needed.old ≡ length values.now }
    ensures { needed.new
        ≡ asked_by_failing marks.now pins.now (λ s. slice_index_or values.now s false) needed.old }
{
    for (i, mark) in marks.iter().enumerate() {
        let pin = pins[i] as usize;
        if !mark_matches(*mark, values[pin]) {
            needed[pin] = true;
            return;
        }
    }
}

/// The id of the first clause of a table's rows, and that of the first of the clauses behind them, which say
/// that a row implies the plane.
#[derive(Clone, Copy)]
struct ClauseIds {
    rows: u64,
    implications: u64,
}

/// Adds the hints of the first row that matches, the last hint first, and marks as needed the signals on
/// which they depend.
fn push_match(
    hints: &mut Vec<u64>,
    needed: &mut [bool],
    ids: ClauseIds,
    rows: &[Row],
    pins: &[Signal],
    values: &[bool],
) -> Result<(), AllocError>
    requires widths { All (λ marks. length marks ≡ length pins.now) rows.now }
    requires pins_in { All (λ s. s < length values.now) pins.now }
    requires flags { length needed.old ≡ length values.now }
    requires ids { ids.rows + sum_by (λ marks. row_literals marks + 1) rows.now < 2 ^ 63 }
    requires implying { ids.implications + length rows.now < 2 ^ 63 }
    ensures hints { OnOk result (hints.new.items ≡ hints.old.items
        ++ reverse (match_hints ids.rows ids.implications pins.now rows.now
        (λ s. slice_index_or values.now s false))) }
    ensures asked { OnOk result (needed.new
        ≡ asked_by_match pins.now rows.now (λ s. slice_index_or values.now s false) needed.old) }
{
    let mut id = ids.rows;
    let mut implied = ids.implications;
    for row in rows {
        let marks = row.as_slice();
        if row_matches(marks, pins, values) {
            ask_row(marks, pins, needed);
            hints.push(implied)?;
            hints.push(row_hint(id, marks, pins, values))?;
            return Ok(());
        }
        id += row_literals(marks) as u64 + 1;
        implied += 1;
    }
    Ok(())
}

/// Adds the hints of a table of which no row matches, the last hint first, and marks as needed the signals on
/// which they depend. The last clause of the table has the id `last`.
fn push_failing(
    hints: &mut Vec<u64>,
    needed: &mut [bool],
    last: u64,
    rows: &[Row],
    pins: &[Signal],
    values: &[bool],
) -> Result<(), AllocError>
    requires widths { All (λ marks. length marks ≡ length pins.now) rows.now }
    requires pins_in { All (λ s. s < length values.now) pins.now }
    requires flags { length needed.old ≡ length values.now }
    requires few { last < 2 ^ 63 }
    requires ids { sum_by (λ marks. row_literals marks + 1) rows.now + length rows.now ≤ last }
    ensures hints { OnOk result (hints.new.items ≡ hints.old.items
        ++ reverse (failing_hints (last - length rows.now - sum_by (λ marks. row_literals marks + 1) rows.now)
        (last - length rows.now) pins.now rows.now (λ s. slice_index_or values.now s false))) }
    ensures asked { OnOk result (needed.new
        ≡ asked_by_rows pins.now rows.now (λ s. slice_index_or values.now s false) needed.old) }
{
    hints.push(last)?;
    let mut id = last - rows.len() as u64;
    let mut left = rows.len();
    while left > 0 {
        left -= 1;
        let marks = rows[left].as_slice();
        id -= row_literals(marks) as u64 + 1;
        hints.push(row_hint(id, marks, pins, values))?;
        ask_failing(marks, pins, values, needed);
    }
    Ok(())
}

/// Whether a table of this plane and this value has a row that matches.
fn has_match(plane: bool, value: bool) -> bool
    ensures { result ≡ has_match plane value }
{
    if plane { value } else { !value }
}

/// Adds the hints of table `i`, the last hint first, where the table is needed. Then the table is no longer
/// needed, and the signals on which its hints depend are.
fn push_table(
    hints: &mut Vec<u64>,
    needed: &mut [bool],
    net: &Net,
    firsts: &[u64],
    i: u32,
    values: &[bool],
) -> Result<(), AllocError>
    requires table { i < table_count net.now }
    requires values { length values.now ≡ signal_count net.now }
    requires flags { length needed.old ≡ length values.now }
    requires firsts { firsts.now ≡ first_ids 1 net.now.tables }
    requires ids { sum_by table_clause_count net.now.tables < 2 ^ 62 }
    ensures hints { OnOk result (hints.new.items ≡ hints.old.items
        ++ reverse (if slice_index_or needed.old (input_count net.now + i) false
        then hints_from (slice_index (first_ids 1 net.now.tables) i) (input_count net.now + i)
        (table_at net.now.tables i)
        (λ s. slice_index_or values.now s false)
        else [])) }
    ensures asked { OnOk result (needed.new ≡ (if slice_index_or needed.old (input_count net.now + i) false
        then asked_by_table (input_count net.now + i) (table_at net.now.tables i)
        (λ s. slice_index_or values.now s false)
        (slice_set needed.old (input_count net.now + i) false)
        else needed.old)) }
{
    let place = (net.inputs() + i) as usize;
    if !needed[place] {
        return Ok(());
    }
    needed[place] = false;
    let table = net.table(i);
    let pins = table.pins().as_slice();
    let rows = table.rows().as_slice();
    let last = firsts[i as usize + 1] - 1;
    if has_match(table.plane(), values[place]) {
        let ids = ClauseIds {
            rows: firsts[i as usize],
            implications: last - rows.len() as u64,
        };
        return push_match(hints, needed, ids, rows, pins, values);
    }
    push_failing(hints, needed, last, rows, pins, values)
}

/// How many clauses a table has.
fn table_clause_count(table: &Table) -> u64
    requires { table_clause_count table.now < 2 ^ 63 }
    ensures { result ≡ table_clause_count table.now }
{
    let rows = table.rows().len() as u64;
    table.literals() + rows + rows + 1
}

/// The id of the first clause of each table, and then the id of the clause behind those of all tables.
pub(crate) fn first_ids(alloc: Global, net: &Net) -> Result<Ids, AllocError>
    requires { sum_by table_clause_count net.now.tables < 2 ^ 62 }
    ensures { IfOk result (λ firsts. firsts ≡ first_ids 1 net.now.tables) }
{
    let mut firsts = Items::new(alloc);
    let mut next = 1;
    for t in 0..net.tables() {
        firsts.push(next)?;
        next += table_clause_count(net.table(t));
    }
    firsts.push(next)?;
    Ok(firsts)
}

/// Adds the hints of the needed tables of this order, the last hint first. The marks become those of the
/// signals that are needed before these tables.
fn push_tables(
    hints: &mut Vec<u64>,
    needed: &mut [bool],
    net: &Net,
    order: &[u32],
    firsts: &[u64],
    values: &[bool],
) -> Result<(), AllocError>
    requires values { length values.now ≡ signal_count net.now }
    requires flags { length needed.old ≡ length values.now }
    requires order { IsOrderOf (input_count net.now) net.now.tables order.now }
    requires firsts { firsts.now ≡ first_ids 1 net.now.tables }
    requires ids { sum_by table_clause_count net.now.tables < 2 ^ 62 }
    requires start { hints.old.items ≡ slice_index (first_ids 1 net.now.tables) (table_count net.now) ∷ [] }
    ensures { OnOk result (hints.new.items
        ≡ reverse (hints_before (input_count net.now) net.now.tables (λ s. slice_index_or values.now s false)
        needed.old order.now)) }
{
    let mut left = order.len();
    while left > 0 {
        left -= 1;
        push_table(hints, needed, net, firsts, order[left], values)?;
    }
    Ok(())
}

/// Room for the hints of a vector: the values of the signals there, which of the signals are needed, and the
/// hints, the last hint first.
#[derive(Drop)]
pub(crate) struct Room {
    pub(crate) values: Vec<bool>,
    needed: Vec<bool>,
    hints: Vec<u64>,
}

/// Room for the vectors of a net.
pub(crate) fn room_for(alloc: Global, net: &Net) -> Result<Room, AllocError>
    ensures { IfOk result (FitsRoom net.now) }
{
    let signals = net.signals() as usize;
    Ok(Room {
        values: vec![in alloc; false; signals]?,
        needed: vec![in alloc; false; signals]?,
        hints: Vec::new(alloc),
    })
}

/// The hints in reverse order.
fn reversed(alloc: Global, hints: &[u64]) -> Result<Ids, AllocError>
    ensures { IfOk result (λ ids. ids ≡ reverse hints.now) }
{
    let mut ids = Items::new(alloc);
    for hint in hints.iter().rev() {
        ids.push(*hint)?;
    }
    Ok(ids)
}

/// The hints of the input vector at which the signals have the values in the room: those of the tables on
/// which the output depends there, in the order of the tables.
pub(crate) fn vector_hints(
    alloc: Global,
    net: &Net,
    order: &[u32],
    firsts: &[u64],
    room: &mut Room,
) -> Result<Ids, AllocError>
    requires room { FitsRoom net.now room.old }
    requires order { IsOrderOf (input_count net.now) net.now.tables order.now }
    requires firsts { firsts.now ≡ first_ids 1 net.now.tables }
    requires ids { sum_by table_clause_count net.now.tables < 2 ^ 62 }
    ensures hints { IfOk result (λ hints. hints ≡ ordered_hints (input_count net.now) net.now.tables order.now
        (slice_index net.now.outputs 0) (λ s. slice_index_or room.old.values.items s false)) }
    ensures room { FitsRoom net.now room.new }
{
    let count = net.tables() as usize;
    room.hints.clear();
    room.hints.push(firsts[count])?;
    let needed = room.needed.as_mut_slice();
    needed.fill(false);
    needed[net.output(0) as usize] = true;
    push_tables(&mut room.hints, needed, net, order, firsts, &room.values)?;
    reversed(alloc, &room.hints)
}
