//! Steps behind a log, each with hints that are found among given clauses.
use crate::equal_signals::Links;
use crate::hints::{Given, Known};
use net_parts::items::Items;
use proof_parts::clause::Lits;
use proof_parts::cnf::Cnf;
use proof_parts::log::{Ids, Item, Log, Step};
use std::alloc::{AllocError, Global};

/// A formula, the log behind which steps are made, the signals that it shows to be equal, these steps, the
/// last id, what is known while hints are found, and the ids of the clauses that a search is to read.
#[derive(Drop)]
pub(crate) struct Maker<'a> {
    pub(crate) alloc: Global,
    pub(crate) cnf: &'a Cnf,
    pub(crate) derived: &'a Log,
    pub(crate) links: Links,
    pub(crate) steps: Log,
    pub(crate) last: u64,
    pub(crate) known: Known,
    pub(crate) base: Ids,
}

impl<'a> Maker<'a> {
    /// What the clause of an id gives.
    fn given(&self, id: u64) -> Given {
        let clauses = self.cnf.clauses().as_slice();
        let place = id.saturating_sub(1) as usize;
        if place < clauses.len() {
            return self.known.given(clauses[place].as_slice());
        }
        let behind = place.saturating_sub(clauses.len());
        if behind >= self.derived.len() {
            return Given::Nothing;
        }
        match self.derived.get(behind) {
            Item::Add(step) => self.known.given(step.lits().as_slice()),
            Item::Remove(_) => Given::Nothing,
        }
    }

    /// The hints among these clauses along which a clause follows, or None where it does not follow by them.
    fn hints(&mut self, clause: &[i32], among: &[u64]) -> Result<Option<Ids>, AllocError> {
        self.known.clear();
        for literal in clause {
            self.known.set(literal.saturating_neg())?;
        }
        let mut hints = Items::new(self.alloc);
        for id in among {
            match self.given(*id) {
                Given::Nothing => {}
                Given::Unit(literal) => {
                    hints.push(*id)?;
                    self.known.set(literal)?;
                }
                Given::Conflict => {
                    hints.push(*id)?;
                    return Ok(Some(hints));
                }
            }
        }
        Ok(None)
    }

    /// Adds a step with this clause to the log and to what a search is to read, where it follows by these
    /// clauses. Returns whether it does.
    pub(crate) fn push(&mut self, clause: &[i32], among: &[u64]) -> Result<bool, AllocError> {
        for literal in clause {
            if *literal == 0 || *literal == i32::MIN {
                return Ok(false);
            }
        }
        let Some(hints) = self.hints(clause, among)? else {
            return Ok(false);
        };
        let mut lits = Lits::with_room(self.alloc, clause.len())?;
        for literal in clause {
            if *literal != 0 && *literal != i32::MIN {
                lits.push(*literal)?;
            }
        }
        let id = self.last.saturating_add(1);
        self.steps.push(Item::Add(Step::new(id, lits, hints)))?;
        self.last = id;
        self.base.push(id)?;
        Ok(true)
    }

    /// Adds the ids of the clauses by which a literal's variable is equal to the root of its links, those of
    /// the root first.
    pub(crate) fn push_links(&self, among: &mut Vec<u64>, literal: i32) -> Result<(), AllocError> {
        let mut path = Vec::new(self.alloc);
        let mut at = literal;
        for _ in 0..self.links.count() {
            let Some(link) = self.links.link(at) else {
                break;
            };
            path.push(link.forth)?;
            path.push(link.back)?;
            at = link.literal;
        }
        for _ in 0..path.len() {
            if let Some(id) = path.pop() {
                among.push(id)?;
            }
        }
        Ok(())
    }
}
