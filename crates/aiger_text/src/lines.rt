//! The lines and the literal of a table.
ghost use Rattle.std.specs.Prelude.{◌≡◌, ◌+◌, ◌-◌, ◌^◌, ◌<◌, ◌≤◌, ◌++◌, length, map, slice_index_or, All};
ghost use Rattle.std.specs.Prelude.{IfOk, OnOk};
ghost use Rattle.aiger_semantics.specs.Circuit.{negated};
ghost use Rattle.aiger_semantics.specs.NetCircuit.{rows_ands, table_ands, rows_joins, rows_joined};
ghost use Rattle.aiger_semantics.specs.NetCircuit.{table_joins, table_literal};

use crate::joined_literals::{ask, joined, push_joins};
use crate::literal::{Literal, negated};
use aiger_semantics::and_line::AndLine;
use net_core::items::{Items, Signal};
use net_core::row::Row;
use net_core::table::{Table, row_literals};
use std::alloc::AllocError;

/// The number of lines that join `count` literals.
fn joins_of(count: usize) -> u32
    requires { count - 1 < 2 ^ 32 }
    ensures { result ≡ count - 1 }
{
    count.saturating_sub(1) as u32
}

/// The number of lines of the rows.
fn rows_ands(rows: &[Row]) -> u32
    requires { rows_ands rows.now < 2 ^ 32 }
    ensures { result ≡ rows_ands rows.now }
{
    let mut count = 0;
    for row in rows {
        count += joins_of(row_literals(row.as_slice()));
    }
    count
}

/// The number of lines of a table.
pub(crate) fn table_ands(table: &Table) -> u32
    requires { table_ands table.now < 2 ^ 32 }
    ensures { result ≡ table_ands table.now }
{
    rows_ands(table.rows().as_slice()) + joins_of(table.rows().len())
}

/// Puts the opposite of each row's literal into `opposites`, and returns the first variable behind those of
/// the rows' lines.
fn oppose_rows(
    rows: &[Row],
    pins: &[Signal],
    literals: &[Literal],
    first: u32,
    asked: &mut Vec<Literal>,
    opposites: &mut Vec<Literal>,
) -> Result<u32, AllocError>
    requires widths { All (λ marks. length marks ≡ length pins.now) rows.now }
    requires pins_in { All (λ s. s < length literals.now) pins.now }
    requires fits { first + rows_ands rows.now ≤ 2 ^ 31 }
    ensures next { IfOk result (λ next. next ≡ first + rows_ands rows.now) }
    ensures opposites { OnOk result (opposites.new.items
        ≡ map negated (rows_joined (λ s. slice_index_or literals.now s 0) first pins.now rows.now)) }
{
    opposites.clear();
    let mut next = first;
    for row in rows {
        ask(row.as_slice(), pins, literals, asked)?;
        opposites.push(negated(joined(next, asked)))?;
        next += joins_of(asked.len());
    }
    Ok(next)
}

/// Adds the lines of each row, which have the variables from `first` on.
fn push_rows(
    lines: &mut Items<AndLine>,
    rows: &[Row],
    pins: &[Signal],
    literals: &[Literal],
    first: u32,
    asked: &mut Vec<Literal>,
) -> Result<(), AllocError>
    requires widths { All (λ marks. length marks ≡ length pins.now) rows.now }
    requires pins_in { All (λ s. s < length literals.now) pins.now }
    requires fits { first + rows_ands rows.now ≤ 2 ^ 31 }
    ensures { OnOk result (lines.new
        ≡ lines.old ++ rows_joins (λ s. slice_index_or literals.now s 0) first pins.now rows.now) }
{
    let mut next = first;
    for row in rows {
        ask(row.as_slice(), pins, literals, asked)?;
        push_joins(lines, next, asked)?;
        next += joins_of(asked.len());
    }
    Ok(())
}

/// The literal of a table whose lines have the variables from `first` on. The two lists are filled anew.
pub(crate) fn table_literal(
    table: &Table,
    literals: &[Literal],
    first: u32,
    asked: &mut Vec<Literal>,
    opposites: &mut Vec<Literal>,
) -> Result<Literal, AllocError>
    requires pins_in { All (λ s. s < length literals.now) table.now.pins }
    requires fits { first + table_ands table.now ≤ 2 ^ 31 }
    ensures { IfOk result (λ literal. literal
        ≡ table_literal (λ s. slice_index_or literals.now s 0) first table.now) }
{
    let (rows, pins) = (table.rows().as_slice(), table.pins().as_slice());
    let next = oppose_rows(rows, pins, literals, first, asked, opposites)?;
    let disjunction = negated(joined(next, opposites));
    if table.plane() {
        Ok(disjunction)
    } else {
        Ok(negated(disjunction))
    }
}

/// Adds the lines of a table, which have the variables from `first` on. The two lists are filled anew.
pub(crate) fn push_table(
    lines: &mut Items<AndLine>,
    table: &Table,
    literals: &[Literal],
    first: u32,
    asked: &mut Vec<Literal>,
    opposites: &mut Vec<Literal>,
) -> Result<(), AllocError>
    requires pins_in { All (λ s. s < length literals.now) table.now.pins }
    requires fits { first + table_ands table.now ≤ 2 ^ 31 }
    ensures { OnOk result (lines.new
        ≡ lines.old ++ table_joins (λ s. slice_index_or literals.now s 0) first table.now) }
{
    let (rows, pins) = (table.rows().as_slice(), table.pins().as_slice());
    push_rows(lines, rows, pins, literals, first, asked)?;
    let next = oppose_rows(rows, pins, literals, first, asked, opposites)?;
    push_joins(lines, next, opposites)
}
