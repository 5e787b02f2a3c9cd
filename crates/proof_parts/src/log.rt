//! Logs of steps. Source: LRAT.
ghost use Rattle.std.specs.Prelude.{◌≡◌};

use crate::clause::Lits;
use net_parts::items::Items;
use std::marker::Model;

/// Ids of clauses: the hints of a step, or the clauses whose holding a removal ends.
pub type Ids = Items<u64>;

/// An item of a log.
pub type Item = proof_semantics::item::Item<Step, Ids>;

/// The items of a log, in their order.
pub type Log = Items<Item>;

/// A step: its id, the literals of its clause, and the ids of the clauses from which it follows.
#[derive(Drop)]
pub struct Step {
    id: u64,
    lits: Lits,
    hints: Ids,
}

impl Model for Step {
    ghost use Rattle.proof_semantics.specs.Logs.{StepValue};

    ghost Value = { StepValue };

    ghost view = { λ a. record { id = a.id; literals = a.lits; hints = a.hints } };
}

impl Step {
    /// The step of these parts. The call takes no memory.
    pub fn new(id: u64, lits: Lits, hints: Ids) -> Step
        ensures { result ≡ record { id = id; literals = lits; hints = hints } }
    {
        Step { id, lits, hints }
    }

    /// The number of the clause that the step adds.
    pub fn id(&self) -> u64
        ensures { result ≡ self.now.id }
    {
        self.id
    }

    /// The clause that the step adds.
    pub fn lits(&self) -> &Lits
        ensures { result.now ≡ self.now.literals }
    {
        &self.lits
    }

    /// The numbers of the clauses from which the step follows, in the order in which they become unit.
    pub fn hints(&self) -> &Ids
        ensures { result.now ≡ self.now.hints }
    {
        &self.hints
    }
}
