//! The formula of a round: clauses of the formula, and of the whole log.
ghost use Rattle.std.specs.Prelude.{◌≡◌, ℕ, ◌<◌, ◌^◌, ◌∷◌, ◌++◌, List, [], take, length, IfOk, OnOk, IfSome};
ghost use Rattle.proof_semantics.specs.Clauses.{Clause};
ghost use Rattle.proof_semantics.specs.Logs.{IsDerivation};
ghost use Rattle.proof_semantics.specs.Conflicts.{clauses_with};
ghost use Rattle.cdcl_core.specs.Rounds.{HasId, AreNamed, IsRound};

use net_parts::items::Items;
use proof_parts::clause::{ClauseList, Lits};
use proof_parts::cnf::Cnf;
use proof_parts::log::{Ids, Item, Log};
use std::alloc::{AllocError, Global};

/// The formula of a round, and the id of each of its clauses in the whole log.
#[derive(Drop)]
pub struct Round {
    pub formula: Cnf,
    pub ids: Ids,
}

/// Clauses of a round, and the id of each in the whole log.
#[derive(Drop)]
struct Draft {
    clauses: ClauseList,
    ids: Ids,
}

/// Adds a copy of a clause, and its id in the whole log.
fn push_named(alloc: Global, draft: &mut Draft, lits: &Lits, id: u64) -> Result<(), AllocError>
    ensures clauses { OnOk result (draft.new.clauses ≡ draft.old.clauses ++ lits.now ∷ []) }
    ensures ids { OnOk result (draft.new.ids ≡ draft.old.ids ++ id ∷ []) }
{
    let copy = Lits::from_slice(alloc, lits.as_slice())?;
    draft.clauses.push(copy)?;
    draft.ids.push(id)?;
    Ok(())
}

/// The clause that a step of the whole log adds under this id; None where no step has the id.
pub fn step_clause<'a>(cnf: &Cnf, whole: &'a Log, id: u64) -> Option<&'a Lits>
    requires { IsDerivation cnf.now whole.now }
    ensures { IfSome result (λ lits. HasId (clauses_with cnf.now.clauses whole.now) lits.now id) }
{
    let first = cnf.clauses().len() as u64;
    if id <= first {
        return None;
    }
    let place = (id - first - 1) as usize;
    if place >= whole.len() {
        return None;
    }
    match whole.get(place) {
        Item::Add(step) => Some(step.lits()),
        Item::Remove(_) => None,
    }
}

/// The clause that has this id in the whole log: a clause of the formula, or one that a step adds. None where
/// no clause has the id.
pub fn whole_clause<'a>(cnf: &'a Cnf, whole: &'a Log, id: u64) -> Option<&'a Lits>
    requires { IsDerivation cnf.now whole.now }
    ensures { IfSome result (λ lits. HasId (clauses_with cnf.now.clauses whole.now) lits.now id) }
{
    let clauses = cnf.clauses().as_slice();
    if id == 0 {
        return None;
    }
    let place = (id - 1) as usize;
    if place < clauses.len() {
        return Some(&clauses[place]);
    }
    step_clause(cnf, whole, id)
}

/// Adds the clauses that have these ids in the whole log.
fn push_with_ids(
    alloc: Global,
    draft: &mut Draft,
    cnf: &Cnf,
    whole: &Log,
    ids: &[u64],
) -> Result<(), AllocError>
    requires derivation { IsDerivation cnf.now whole.now }
    requires named { AreNamed (clauses_with cnf.now.clauses whole.now) draft.old.clauses draft.old.ids }
    ensures named { OnOk result
        (AreNamed (clauses_with cnf.now.clauses whole.now) draft.new.clauses draft.new.ids) }
{
    for id in ids {
        if let Some(lits) = whole_clause(cnf, whole, *id) {
            push_named(alloc, draft, lits, *id)?;
        }
    }
    Ok(())
}

/// Says how many ids there can be.
fn see_few(ids: &[u64])
    ensures { length ids.now < 2 ^ 60 }
{
    let _count = ids.len();
}

/// The round over the clauses that have these ids in the whole log.
pub fn round_of(alloc: Global, cnf: &Cnf, whole: &Log, ids: &[u64]) -> Result<Round, AllocError>
    requires { IsDerivation cnf.now whole.now }
    ensures round { IfOk result (λ round. IsRound cnf.now whole.now round.formula round.ids) }
    ensures short { IfOk result (λ round. length round.formula.clauses < 2 ^ 63) }
{
    let mut draft = Draft {
        clauses: Items::new(alloc),
        ids: Items::new(alloc),
    };
    push_with_ids(alloc, &mut draft, cnf, whole, ids)?;
    see_few(draft.ids.as_slice());
    let Draft { clauses, ids } = draft;
    let formula = Cnf::new(cnf.vars(), clauses);
    Ok(Round { formula, ids })
}
