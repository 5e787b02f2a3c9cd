//! The direct clauses of a formula's tables.
ghost use Rattle.std.specs.Prelude.{◌≡◌, take, length, IfOk, OnOk};
ghost use Rattle.proof_semantics.specs.Logs.{IsDerivation};

use crate::checked::is_derivation;
use crate::equal_signals::Links;
use crate::forms::{RowForm, TableForm, read_forms};
use crate::hints::Known;
use crate::log_copy::{item_copy, log_copy};
use crate::products::products;
use crate::steps::Maker;
use net_parts::items::Items;
use proof_parts::cnf::Cnf;
use proof_parts::log::{Ids, Item, Log};
use std::alloc::{AllocError, Global};

/// A log that begins with a given one, and the ids of the clauses that a search is to read in the place of
/// those of the formula.
#[derive(Drop)]
pub struct Direct {
    pub log: Log,
    pub base: Ids,
}

impl<'a> Maker<'a> {
    /// Adds the ids of the clauses from which what is said of a row follows: its signals' links, and its own.
    fn push_row(&self, among: &mut Vec<u64>, row: &RowForm) -> Result<(), AllocError> {
        for pin in &row.pins {
            self.push_links(among, pin.literal)?;
        }
        for pin in &row.pins {
            among.push(pin.id)?;
        }
        Ok(())
    }

    /// The clause that a row implies the table's literal, unless it says nothing.
    fn push_implied(&mut self, top: i32, row: &RowForm) -> Result<bool, AllocError> {
        let Some(joined) = row.joined else {
            return Ok(false);
        };
        let mut clause = Vec::new(self.alloc);
        clause.push(self.links.root(top))?;
        let mut among = Vec::new(self.alloc);
        self.push_links(&mut among, top)?;
        for pin in &row.pins {
            let literal = self.links.root(pin.literal);
            if clause.contains(&literal) {
                return Ok(true);
            }
            if !clause.contains(&literal.saturating_neg()) {
                clause.push(literal.saturating_neg())?;
            }
            self.push_links(&mut among, pin.literal)?;
        }
        among.push(joined)?;
        among.push(row.implies)?;
        self.push(&clause, &among)
    }

    /// The clauses of a table, where they are not too many; else its own clauses are read.
    fn push_table(&mut self, table: &TableForm) -> Result<bool, AllocError> {
        let opposite = self.links.root(table.top.saturating_neg());
        let found = products(self.alloc, &self.links, opposite, &table.rows)?;
        let Some(clauses) = found else {
            self.push_own(table)?;
            return Ok(true);
        };
        for row in &table.rows {
            if !self.push_implied(table.top, row)? {
                return Ok(false);
            }
        }
        let mut among = Vec::new(self.alloc);
        self.push_links(&mut among, table.top)?;
        for row in &table.rows {
            self.push_row(&mut among, row)?;
        }
        among.push(table.last)?;
        for clause in &clauses {
            if !self.push(clause, &among)? {
                return Ok(false);
            }
        }
        Ok(true)
    }

    /// Lets a search read the clauses of a table as they are, and what its signals are equal to.
    fn push_own(&mut self, table: &TableForm) -> Result<(), AllocError> {
        for id in table.first..table.last.saturating_add(1) {
            self.base.push(id)?;
        }
        let mut among = Vec::new(self.alloc);
        for row in &table.rows {
            for pin in &row.pins {
                self.push_links(&mut among, pin.literal)?;
            }
        }
        for id in &among {
            self.base.push(*id)?;
        }
        Ok(())
    }
}

/// Marks the table of a literal's root, and lists it where it was not marked.
fn reach(
    links: &Links,
    tables: &[Option<usize>],
    marks: &mut [bool],
    waiting: &mut Vec<usize>,
    literal: i32,
) -> Result<(), AllocError> {
    let at = links.root(literal).unsigned_abs() as usize;
    if at < tables.len() {
        if let Some(table) = tables[at] {
            if table < marks.len() && !marks[table] {
                marks[table] = true;
                waiting.push(table)?;
            }
        }
    }
    Ok(())
}

/// For each variable the table whose output it is, if there is one.
fn tables_of(
    alloc: Global,
    tables: &[TableForm],
    signals: u32,
) -> Result<Vec<Option<usize>>, AllocError> {
    let mut of = vec![in alloc; None; signals as usize + 1]?;
    for (t, table) in tables.iter().enumerate() {
        let at = table.top.unsigned_abs() as usize;
        if at < of.len() {
            of[at] = Some(t);
        }
    }
    Ok(of)
}

/// Which tables are those of roots on which the literals of the clauses `rest` depend.
fn needed_tables(
    alloc: Global,
    cnf: &Cnf,
    links: &Links,
    tables: &[TableForm],
    rest: &[u64],
    signals: u32,
) -> Result<Vec<bool>, AllocError> {
    let of = tables_of(alloc, tables, signals)?;
    let mut marks = vec![in alloc; false; tables.len()]?;
    let mut waiting = Vec::new(alloc);
    let clauses = cnf.clauses().as_slice();
    for id in rest {
        let place = id.saturating_sub(1) as usize;
        if place < clauses.len() {
            for literal in clauses[place].as_slice() {
                reach(links, &of, &mut marks, &mut waiting, *literal)?;
            }
        }
    }
    for _ in 0..tables.len() {
        let Some(t) = waiting.pop() else {
            return Ok(marks);
        };
        if t < tables.len() {
            for row in &tables[t].rows {
                for pin in &row.pins {
                    reach(links, &of, &mut marks, &mut waiting, pin.literal)?;
                }
            }
        }
    }
    Ok(marks)
}

impl<'a> Maker<'a> {
    /// A clause of the formula that belongs to no table, over the roots of its literals.
    fn push_rest(&mut self, id: u64) -> Result<bool, AllocError> {
        let place = id.saturating_sub(1) as usize;
        let cnf = self.cnf;
        let clauses = cnf.clauses().as_slice();
        if place >= clauses.len() {
            return Ok(false);
        }
        let mut clause = Vec::new(self.alloc);
        let mut among = Vec::new(self.alloc);
        for literal in clauses[place].as_slice() {
            clause.push(self.links.root(*literal))?;
            self.push_links(&mut among, *literal)?;
        }
        among.push(id)?;
        self.push(&clause, &among)
    }
}

/// The steps behind a log, where each is found.
fn found(maker: &mut Maker, signals: u32) -> Result<bool, AllocError> {
    let alloc = maker.alloc;
    let cnf = maker.cnf;
    let forms = read_forms(alloc, cnf.clauses().as_slice(), signals)?;
    let marks = needed_tables(
        alloc,
        cnf,
        &maker.links,
        &forms.tables,
        &forms.rest,
        signals,
    )?;
    for (t, table) in forms.tables.iter().enumerate() {
        if t < marks.len() && marks[t] {
            if !maker.push_table(table)? {
                return Ok(false);
            }
        }
    }
    for id in &forms.rest {
        if !maker.push_rest(*id)? {
            return Ok(false);
        }
    }
    Ok(true)
}

/// Adds copies of these steps behind a log.
fn append(alloc: Global, log: &mut Log, steps: &[Item]) -> Result<(), AllocError>
    ensures { OnOk result (take (length log.old) log.new ≡ log.old) }
{
    for item in steps {
        log.push(item_copy(alloc, item)?)?;
    }
    Ok(())
}

/// The steps behind a derived log, and what a search is to read; None where some step is not found.
fn steps_behind(
    alloc: Global,
    cnf: &Cnf,
    derived: &Log,
    order: &[u32],
    signals: u32,
) -> Result<Option<Direct>, AllocError> {
    let clauses = cnf.clauses().len() as u64;
    let mut maker = Maker {
        alloc,
        cnf,
        derived,
        links: Links::of(alloc, derived.as_slice(), order, signals)?,
        steps: Items::new(alloc),
        last: clauses.saturating_add(derived.len() as u64),
        known: Known::new(alloc, cnf.vars())?,
        base: Items::new(alloc),
    };
    if !found(&mut maker, signals)? {
        return Ok(None);
    }
    let Maker { steps, base, .. } = maker;
    Ok(Some(Direct { log: steps, base }))
}

/// Steps behind a derived log whose clauses speak of the net's signals alone, as far as they are few: with
/// the clauses `base` of the log and the formula the inputs of the net may have the same values as with the
/// formula. The first `signals` variables are those of the signals, and `order` has the signals of the
/// tables, each behind those that its table reads; no statement depends on them. The base is empty where no
/// such steps are found. The error is want of memory.
pub fn direct_clauses(
    alloc: Global,
    cnf: &Cnf,
    derived: Log,
    order: &[u32],
    signals: u32,
) -> Result<Direct, AllocError>
    requires { IsDerivation cnf.now derived }
    ensures derivation { IfOk result (λ direct. IsDerivation cnf.now direct.log) }
    ensures begins { IfOk result (λ direct. take (length derived) direct.log ≡ derived) }
{
    let count = derived.len();
    let found = steps_behind(alloc, cnf, &derived, order, signals)?;
    let mut log = derived;
    let Some(direct) = found else {
        return Ok(Direct {
            log,
            base: Items::new(alloc),
        });
    };
    append(alloc, &mut log, direct.log.as_slice())?;
    if is_derivation(alloc, cnf, &log)? {
        let base = direct.base;
        return Ok(Direct { log, base });
    }
    Ok(Direct {
        log: log_copy(alloc, &log.as_slice()[..count])?,
        base: Items::new(alloc),
    })
}
