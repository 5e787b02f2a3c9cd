//! Clauses as the solver holds them: those of the formula, of the merged steps, and the learned ones.
ghost use Rattle.std.specs.Prelude.{◌≡◌, true, [], ◌∷◌, ◌++◌, IfOk, OnOk};
ghost use Rattle.proof_parts.specs.Literals.{AreLiterals};
ghost use Rattle.proof_semantics.specs.Conflicts.{added_clauses};
ghost use Rattle.cdcl_core.specs.Watched.{IsBinary};

use crate::clause_list::ClauseList;
use crate::literal::Literal;
use net_parts::items::Items;
use proof_parts::clause::Lits;
use proof_parts::log::Item;
use std::alloc::{AllocError, Global};

/// The literals of a clause.
pub type Clause = Items<Literal>;

/// The clause as the solver holds it.
fn read_clause(alloc: Global, literals: &[i32]) -> Result<Clause, AllocError>
    requires { AreLiterals literals.now }
    ensures { IfOk result (λ clause. clause ≡ literals.now) }
{
    let mut clause = Items::new(alloc);
    for literal in literals {
        clause.push(Literal::new(*literal))?;
    }
    Ok(clause)
}

/// Whether the clause has no literals but these two.
pub fn is_binary(clause: &[Literal], one: Literal, other: Literal) -> bool
    ensures { result ≡ true → IsBinary one other clause.now }
{
    for literal in clause {
        if !literal.is(one) && !literal.is(other) {
            return false;
        }
    }
    true
}

/// The clause as logs have it.
pub fn written(alloc: Global, clause: &[Literal]) -> Result<Lits, AllocError>
    ensures { IfOk result (λ lits. lits ≡ clause.now) }
{
    let mut lits = Lits::with_room(alloc, clause.len())?;
    for literal in clause {
        lits.push(literal.code())?;
    }
    Ok(lits)
}

/// Adds a copy of the clause.
fn push_copy(alloc: Global, clauses: &mut ClauseList, lits: &Lits) -> Result<(), AllocError>
    ensures { OnOk result (clauses.new.list ≡ clauses.old.list ++ lits.now ∷ []) }
{
    let clause = read_clause(alloc, lits.as_slice())?;
    clauses.push(clause.as_slice())?;
    Ok(())
}

/// Adds copies of these clauses.
pub fn push_all(alloc: Global, clauses: &mut ClauseList, more: &[Lits]) -> Result<(), AllocError>
    ensures { OnOk result (clauses.new.list ≡ clauses.old.list ++ more.now) }
{
    for lits in more {
        push_copy(alloc, clauses, lits)?;
    }
    Ok(())
}

/// Adds copies of the clauses that the items of a log add.
pub fn push_added(alloc: Global, clauses: &mut ClauseList, items: &[Item]) -> Result<(), AllocError>
    ensures { OnOk result (clauses.new.list ≡ clauses.old.list ++ added_clauses items.now) }
{
    for item in items {
        match item {
            Item::Add(step) => push_copy(alloc, clauses, step.lits())?,
            Item::Remove(_) => {}
        }
    }
    Ok(())
}
