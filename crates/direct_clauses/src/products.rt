//! Which clauses say that a table's literal needs some row: one literal of each row, in all ways, without
//! those
//! that say nothing, or no more than another one.
use crate::equal_signals::Links;
use crate::forms::RowForm;
use std::alloc::{AllocError, Global};

/// The most clauses that the ways of choosing may come to on the way, and the most in the end.
const MOST_ON_THE_WAY: usize = 64;

const MOST: usize = 16;

/// Whether a literal stands in the clause.
pub(crate) fn has(clause: &[i32], literal: i32) -> bool {
    clause.contains(&literal)
}

/// Whether each literal of the one clause stands in the other.
fn is_within(one: &[i32], other: &[i32]) -> bool {
    for literal in one {
        if !has(other, *literal) {
            return false;
        }
    }
    true
}

/// Adds a clause, unless one that is there says as much; those that say no more than it go.
fn add_least(clauses: &mut Vec<Vec<i32>>, clause: Vec<i32>) -> Result<(), AllocError> {
    for other in clauses.iter() {
        if is_within(other, &clause) {
            return Ok(());
        }
    }
    let mut at = 0;
    for _ in 0..clauses.len() {
        if at < clauses.len() {
            if is_within(&clause, &clauses[at]) {
                clauses.swap_remove(at);
            } else {
                at += 1;
            }
        }
    }
    clauses.push(clause)?;
    Ok(())
}

/// The clause with one literal more.
fn with_literal(alloc: Global, clause: &[i32], literal: i32) -> Result<Vec<i32>, AllocError> {
    let mut longer = Vec::new(alloc);
    longer.extend_from_slice(clause)?;
    longer.push(literal)?;
    Ok(longer)
}

/// Whether some literal of the row stands in the clause.
fn meets(links: &Links, clause: &[i32], row: &RowForm) -> bool {
    for pin in &row.pins {
        if has(clause, links.root(pin.literal)) {
            return true;
        }
    }
    false
}

/// The clauses with a literal of the row each.
fn with_row(
    alloc: Global,
    links: &Links,
    clauses: &[Vec<i32>],
    row: &RowForm,
) -> Result<Vec<Vec<i32>>, AllocError> {
    let mut longer = Vec::new(alloc);
    for clause in clauses {
        if meets(links, clause, row) {
            add_least(&mut longer, with_none(alloc, clause)?)?;
            continue;
        }
        for pin in &row.pins {
            let literal = links.root(pin.literal);
            if !has(clause, literal.saturating_neg()) {
                add_least(&mut longer, with_literal(alloc, clause, literal)?)?;
            }
        }
    }
    Ok(longer)
}

/// A copy of the clause.
fn with_none(alloc: Global, clause: &[i32]) -> Result<Vec<i32>, AllocError> {
    let mut copy = Vec::new(alloc);
    copy.extend_from_slice(clause)?;
    Ok(copy)
}

/// The clauses by which the literal needs some row, or None where they are too many.
pub(crate) fn products(
    alloc: Global,
    links: &Links,
    literal: i32,
    rows: &[RowForm],
) -> Result<Option<Vec<Vec<i32>>>, AllocError> {
    let mut clauses = Vec::new(alloc);
    let mut first = Vec::new(alloc);
    first.push(literal)?;
    clauses.push(first)?;
    for row in rows {
        clauses = with_row(alloc, links, &clauses, row)?;
        if clauses.len() > MOST_ON_THE_WAY {
            return Ok(None);
        }
    }
    Ok(if clauses.len() <= MOST {
        Some(clauses)
    } else {
        None
    })
}
