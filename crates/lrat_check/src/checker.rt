//! The checker of steps. Source: LRAT with positive hints.
ghost use Rattle.std.specs.Prelude.{◌≡◌, ◌⊎◌, ◌↔◌, ◌<◌, length, true, [], ◌∷◌, ◌++◌, List, Some, IfOk, OnOk};
ghost use Rattle.std.specs.Prelude.{OnErr};
ghost use Rattle.proof_semantics.specs.declared.item.Item.TheVariants.{Add, Remove};
ghost use Rattle.proof_semantics.specs.Clauses.{Clause, IsUnsatisfiable};
ghost use Rattle.proof_semantics.specs.Logs.{LogItem, held_of, step_answer, last_added};
ghost use Rattle.lrat_check.specs.Checker.{start_of, stepped, removed, StandsAfter};

use crate::held_clauses::HeldClauses;
use crate::hints::{follow, insert_negations};
use crate::literal_set::LiteralSet;
use proof_parts::clause::Lits;
use proof_parts::cnf::Cnf;
use proof_parts::log::{Ids, Step};
use proof_semantics::step_refusal::StepRefusal;
use std::alloc::{AllocError, Global};
use std::marker::Model;

/// What was accepted so far. Its memory grows with the clauses that are held, however far apart their ids
/// are, and with the formula's variables. Each step uses one set of literals anew, and finds each hint in
/// time logarithmic in the number of held clauses.
#[derive(Drop)]
pub struct Checker {
    alloc: Global,
    held: HeldClauses,
    /// The literals that a step takes for true; each step empties the set first.
    set: LiteralSet,
    done: bool,
}

impl Model for Checker {
    ghost use Rattle.lrat_check.specs.Checker.{CheckerValue, checker_code};

    ghost Value = { CheckerValue };

    ghost coded = { checker_code };

    ghost view = { λ a. record { held = a.held.held; last = a.held.last; done = a.done } };
}

/// Holds the clauses with the ids from 1 on.
fn hold_all(alloc: Global, clauses: &[Lits]) -> Result<HeldClauses, AllocError>
    ensures { IfOk result (λ held. held ≡ record { held = held_of clauses.now; last = length clauses.now }) }
{
    let mut held = HeldClauses::new(alloc);
    for (i, clause) in clauses.iter().enumerate() {
        held.insert(i as u64 + 1, Lits::from_slice(alloc, clause.as_slice())?)?;
    }
    Ok(held)
}

impl Checker {
    /// Holds the clause of an accepted step.
    fn hold(&mut self, s: &Step) -> Result<(), StepRefusal>
        requires { self.old.last < s.now.id }
        ensures answer { (result ≡ Err StepRefusal.OutOfMemory) ⊎ (result ≡ Ok tt) }
        ensures ok { OnOk result (self.new ≡ stepped self.old s.now) }
        ensures err { OnErr result (self.new ≡ self.old) }
    {
        let literals = s.lits().as_slice();
        let Ok(clause) = Lits::from_slice(self.alloc, literals) else {
            return Err(StepRefusal::OutOfMemory);
        };
        match self.held.insert(s.id(), clause) {
            Ok(()) => {}
            Err(_) => return Err(StepRefusal::OutOfMemory),
        }
        self.done = literals.is_empty();
        Ok(())
    }

    /// A checker of logs over the formula, whose clauses it holds with the ids from 1 on.
    pub fn new(alloc: Global, cnf: &Cnf) -> Result<Checker, AllocError>
        ensures value { IfOk result (λ checker. checker ≡ start_of cnf.now.clauses) }
        ensures stands { IfOk result (StandsAfter cnf.now.clauses []) }
    {
        let clauses = cnf.clauses().as_slice();
        Ok(Checker {
            alloc,
            held: hold_all(alloc, clauses)?,
            set: LiteralSet::new(alloc, cnf.vars())?,
            done: false,
        })
    }

    /// Accepts a step that derives from what is held; after that the step's clause is held.
    pub fn step(&mut self, s: &Step) -> Result<(), StepRefusal>
        ensures answer { (result ≡ Err StepRefusal.OutOfMemory)
            ⊎ (result ≡ step_answer self.old.held self.old.last s.now) }
        ensures ok { OnOk result (self.new ≡ stepped self.old s.now) }
        ensures stands { OnOk result ((formula : List Clause) (log : List LogItem)
            → StandsAfter formula log self.old → StandsAfter formula (log ++ Add s.now ∷ []) self.new) }
        ensures err { OnErr result (self.new ≡ self.old) }
    {
        if s.id() <= self.held.last() {
            return Err(StepRefusal::NotRising(s.id()));
        }
        let literals = s.lits().as_slice();
        self.set.clear();
        match insert_negations(&mut self.set, literals) {
            Ok(()) => {}
            Err(_) => return Err(StepRefusal::OutOfMemory),
        }
        follow(&self.held, &mut self.set, s.hints().as_slice())?;
        self.hold(s)
    }

    /// Ends the holding of the clauses with these ids; an id that is not held is ignored. The call takes no
    /// memory.
    pub fn remove(&mut self, ids: &Ids)
        ensures value { self.new ≡ removed self.old ids.now }
        ensures stands { (formula : List Clause) (log : List LogItem)
            → StandsAfter formula log self.old → StandsAfter formula (log ++ Remove ids.now ∷ []) self.new }
    {
        self.held.remove_all(ids.as_slice());
    }

    /// Whether the step that was accepted last is the empty clause.
    pub fn done(&self) -> bool
        ensures value { result ≡ self.now.done }
        ensures ended { (formula : List Clause) (log : List LogItem)
            → StandsAfter formula log self.now → (result ≡ true) ↔ (last_added log ≡ Some []) }
        ensures refuted { (formula : List Clause) (log : List LogItem)
            → StandsAfter formula log self.now → result ≡ true → IsUnsatisfiable formula }
    {
        self.done
    }
}
