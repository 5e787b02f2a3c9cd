//! The clauses of a table: each row is the conjunction of its literals, and the table the disjunction of its
//! rows. Source: Tseitin's encoding.
ghost use Rattle.std.specs.Prelude.{◌≡◌, ◌+◌, ◌<◌, ◌^◌, [], ◌∷◌, ◌++◌, true, not, map, length, All, neg_ℤ};
ghost use Rattle.std.specs.Prelude.{IfOk, OnOk};
ghost use Rattle.proof_semantics.specs.Clauses.{with_literals};
ghost use Rattle.proof_semantics.specs.NetClauses.{literal_at, mark_literals, literals_of_row, implication};
ghost use Rattle.proof_semantics.specs.NetClauses.{row_clauses, rows_clauses, implications, variables_from};
ghost use Rattle.proof_semantics.specs.NetClauses.{table_clauses};
ghost use Rattle.proof_parts.specs.Literals.{IsLiteral};

use crate::clause::{ClauseList, Lits};
use crate::literal::{Literal, literal_at};
use net_core::items::Signal;
use net_core::mark::Mark;
use net_core::row::Row;
use net_core::table::Table;
use std::alloc::{AllocError, Global};

/// The row at the place `place` implies the literal.
fn implication(alloc: Global, place: u32, literal: Literal) -> Result<Lits, AllocError>
    requires row { place + 1 < 2 ^ 31 }
    requires literal { IsLiteral literal }
    ensures { IfOk result (λ clause. clause ≡ implication place literal) }
{
    let mut clause = Lits::new(alloc);
    clause.push(literal_at(place, false))?;
    clause.push(literal)?;
    Ok(clause)
}

/// The row at the place `place` implies what a mark asks of its pin.
fn push_mark_clause(
    alloc: Global,
    clauses: &mut ClauseList,
    place: u32,
    mark: Mark,
    pin: Signal,
) -> Result<(), AllocError>
    requires row { place + 1 < 2 ^ 31 }
    requires pin { pin + 1 < 2 ^ 31 }
    ensures { OnOk result
        (clauses.new ≡ clauses.old ++ map (implication place) (mark_literals mark pin)) }
{
    match mark {
        Mark::Zero => clauses.push(implication(alloc, place, literal_at(pin, false))?),
        Mark::One => clauses.push(implication(alloc, place, literal_at(pin, true))?),
        Mark::Dash => Ok(()),
    }
}

/// The row at the place `place` implies each of its literals.
fn push_mark_clauses(
    alloc: Global,
    clauses: &mut ClauseList,
    place: u32,
    marks: &[Mark],
    pins: &[Signal],
) -> Result<(), AllocError>
    requires row { place + 1 < 2 ^ 31 }
    requires widths { length marks.now ≡ length pins.now }
    requires variables { All (λ s. s + 1 < 2 ^ 31) pins.now }
    ensures { OnOk result
        (clauses.new ≡ clauses.old ++ map (implication place) (literals_of_row marks.now pins.now)) }
{
    for (i, mark) in marks.iter().enumerate() {
        push_mark_clause(alloc, clauses, place, *mark, pins[i])?;
    }
    Ok(())
}

/// Adds the negation of what a mark asks of its pin.
fn add_negation(clause: &mut Lits, mark: Mark, pin: Signal) -> Result<(), AllocError>
    requires { pin + 1 < 2 ^ 31 }
    ensures { OnOk result
        (clause.new ≡ with_literals clause.old (map neg_ℤ (mark_literals mark pin))) }
{
    match mark {
        Mark::Zero => clause.add(literal_at(pin, true)),
        Mark::One => clause.add(literal_at(pin, false)),
        Mark::Dash => Ok(()),
    }
}

/// The literals of the row at the place `place` imply the row.
#[tactic(auto, using(crate::proofs::Steps::with_literals_append))]
fn row_clause(
    alloc: Global,
    place: u32,
    marks: &[Mark],
    pins: &[Signal],
) -> Result<Lits, AllocError>
    requires row { place + 1 < 2 ^ 31 }
    requires widths { length marks.now ≡ length pins.now }
    requires variables { All (λ s. s + 1 < 2 ^ 31) pins.now }
    ensures { IfOk result (λ clause. clause
        ≡ with_literals (literal_at place true ∷ []) (map neg_ℤ (literals_of_row marks.now pins.now))) }
{
    let mut clause = Lits::new(alloc);
    clause.push(literal_at(place, true))?;
    for (i, mark) in marks.iter().enumerate() {
        add_negation(&mut clause, *mark, pins[i])?;
    }
    Ok(clause)
}

/// The clauses of the row at the place `place`.
fn push_row_clauses(
    alloc: Global,
    clauses: &mut ClauseList,
    place: u32,
    marks: &[Mark],
    pins: &[Signal],
) -> Result<(), AllocError>
    requires row { place + 1 < 2 ^ 31 }
    requires widths { length marks.now ≡ length pins.now }
    requires variables { All (λ s. s + 1 < 2 ^ 31) pins.now }
    ensures { OnOk result
        (clauses.new ≡ clauses.old ++ row_clauses place (literals_of_row marks.now pins.now)) }
{
    push_mark_clauses(alloc, clauses, place, marks, pins)?;
    clauses.push(row_clause(alloc, place, marks, pins)?)
}

/// The clauses of the rows from the place `first` on.
fn push_rows_clauses(
    alloc: Global,
    clauses: &mut ClauseList,
    first: u32,
    pins: &[Signal],
    rows: &[Row],
) -> Result<(), AllocError>
    requires places { first + length rows.now < 2 ^ 31 }
    requires widths { All (λ marks. length marks ≡ length pins.now) rows.now }
    requires variables { All (λ s. s + 1 < 2 ^ 31) pins.now }
    ensures { OnOk result
        (clauses.new ≡ clauses.old ++ rows_clauses first pins.now rows.now) }
{
    for (j, row) in rows.iter().enumerate() {
        push_row_clauses(alloc, clauses, first + j as u32, row.as_slice(), pins)?;
    }
    Ok(())
}

/// Each of `count` rows from the place `first` on implies the literal.
fn push_implications(
    alloc: Global,
    clauses: &mut ClauseList,
    first: u32,
    count: u32,
    literal: Literal,
) -> Result<(), AllocError>
    requires places { first + count < 2 ^ 31 }
    requires literal { IsLiteral literal }
    ensures { OnOk result (clauses.new ≡ clauses.old ++ implications first count literal) }
{
    for j in 0..count {
        clauses.push(implication(alloc, first + j, literal)?)?;
    }
    Ok(())
}

/// The literal, or some of `count` rows from the place `first` on.
#[tactic(auto, using(crate::proofs::Steps::variables_from_push))]
fn some_row_clause(
    alloc: Global,
    literal: Literal,
    first: u32,
    count: u32,
) -> Result<Lits, AllocError>
    requires places { first + count < 2 ^ 31 }
    requires literal { IsLiteral literal }
    ensures { IfOk result (λ clause. clause ≡ literal ∷ variables_from first count) }
{
    let mut clause = Lits::new(alloc);
    clause.push(literal)?;
    for j in 0..count {
        clause.push(literal_at(first + j, true))?;
    }
    Ok(clause)
}

/// The clauses of a table at the place `place`, with its rows from the place `first` on.
pub fn push_table_clauses(
    alloc: Global,
    clauses: &mut ClauseList,
    place: u32,
    first: u32,
    table: &Table,
) -> Result<(), AllocError>
    requires place { place + 1 < 2 ^ 31 }
    requires places { first + length table.now.rows < 2 ^ 31 }
    requires variables { All (λ s. s + 1 < 2 ^ 31) table.now.pins }
    ensures { OnOk result (clauses.new ≡ clauses.old ++ table_clauses place first table.now) }
{
    let pins = table.pins().as_slice();
    let rows = table.rows().as_slice();
    let count = rows.len() as u32;
    let plane = table.plane();
    push_rows_clauses(alloc, clauses, first, pins, rows)?;
    push_implications(alloc, clauses, first, count, literal_at(place, plane))?;
    clauses.push(some_row_clause(alloc, literal_at(place, !plane), first, count)?)
}
