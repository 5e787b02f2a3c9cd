//! The tables of a net, read back from the clauses of its formula.
//!
//! A formula has for each table its rows, that each row implies a literal of the table's signal, and that the
//! signal's other literal implies some row; behind the tables stands what else is asked. Nothing rests on
//! what is read here: a formula of another form gives other tables, and then steps that no checker accepts.
use proof_parts::clause::Lits;
use std::alloc::{AllocError, Global};
use std::mem;

/// A literal of a row, and the id of the clause by which the row implies it.
#[derive(Clone, Copy, Drop)]
pub(crate) struct Pin {
    pub(crate) literal: i32,
    pub(crate) id: u64,
}

/// A row: its variable, its literals, the id of the clause by which they imply it, and the id of the clause
/// by which it implies the table's literal.
#[derive(Drop)]
pub(crate) struct RowForm {
    pub(crate) variable: u32,
    pub(crate) pins: Vec<Pin>,
    pub(crate) joined: Option<u64>,
    pub(crate) implies: u64,
}

/// A table: the literal that each row implies, the rows, the id of its first clause, and the id of its last
/// one, by which the other literal implies some row.
#[derive(Drop)]
pub(crate) struct TableForm {
    pub(crate) top: i32,
    pub(crate) rows: Vec<RowForm>,
    pub(crate) first: u64,
    pub(crate) last: u64,
}

/// The tables, and the ids of the clauses that belong to no table.
#[derive(Drop)]
pub(crate) struct Forms {
    pub(crate) tables: Vec<TableForm>,
    pub(crate) rest: Vec<u64>,
}

/// The rows of a table whose last clause was not read yet, and the id of the first clause.
#[derive(Drop)]
struct Begun {
    rows: Vec<RowForm>,
    first: u64,
}

/// Notes a clause whose first literal is that of a row's variable.
fn read_row(
    alloc: Global,
    begun: &mut Begun,
    variable: u32,
    is_joined: bool,
    lits: &[i32],
    id: u64,
) -> Result<(), AllocError> {
    for row in &mut begun.rows {
        if row.variable == variable && row.joined.is_some() {
            row.implies = id;
            return Ok(());
        }
    }
    let is_next = match begun.rows.last() {
        Some(row) => row.variable != variable,
        None => true,
    };
    if is_next {
        begun.rows.push(RowForm {
            variable,
            pins: Vec::new(alloc),
            joined: None,
            implies: 0,
        })?;
    }
    if let Some(row) = begun.rows.last_mut() {
        if is_joined {
            row.joined = Some(id);
        } else if lits.len() == 2 {
            row.pins.push(Pin {
                literal: lits[1],
                id,
            })?;
        }
    }
    Ok(())
}

/// The tables of a formula whose first `signals` variables are those of the signals.
pub(crate) fn read_forms(
    alloc: Global,
    clauses: &[Lits],
    signals: u32,
) -> Result<Forms, AllocError> {
    let mut found = Forms {
        tables: Vec::new(alloc),
        rest: Vec::new(alloc),
    };
    let mut begun = Begun {
        rows: Vec::new(alloc),
        first: 1,
    };
    for (place, clause) in clauses.iter().enumerate() {
        let id = (place as u64).saturating_add(1);
        let lits = clause.as_slice();
        if lits.len() == 0 {
            found.rest.push(id)?;
            continue;
        }
        let variable = lits[0].unsigned_abs();
        if variable > signals {
            read_row(alloc, &mut begun, variable, lits[0] > 0, lits, id)?;
        } else if begun.rows.is_empty() {
            found.rest.push(id)?;
            begun.first = id.saturating_add(1);
        } else {
            let rows = mem::replace(&mut begun.rows, Vec::new(alloc));
            found.tables.push(TableForm {
                top: lits[0].saturating_neg(),
                rows,
                first: begun.first,
                last: id,
            })?;
            begun.first = id.saturating_add(1);
        }
    }
    Ok(found)
}
