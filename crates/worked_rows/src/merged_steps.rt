//! The solver with steps that were derived before: two copies of one signal, of which exactly one is to be
//! true.
ghost use Rattle.std.specs.Prelude.{◌≡◌, ◌≤◌, ◌++◌, ◌∷◌, [], IfOk, OnOk};
ghost use Rattle.proof_parts.specs.Literals.{AreLiterals};
ghost use Rattle.worked_rows.specs.Copies.{two_copies, equal_copies};

use crate::queries::accepts;
use cdcl_core::answer::Answer;
use cdcl_core::solve::solve;
use cnf_core::clause::{ClauseList, Lits};
use cnf_core::cnf::Cnf;
use cnf_core::log::{Ids, Item, Log, Step};
use std::alloc::{AllocError, Global};
use std::test::Fail;

fn push_clause(alloc: Global, clauses: &mut ClauseList, literals: &[i32]) -> Result<(), AllocError>
    requires { AreLiterals literals.now }
    ensures { OnOk result (clauses.new ≡ clauses.old ++ literals.now ∷ []) }
{
    clauses.push(Lits::from_slice(alloc, literals)?)
}

/// Signal 1 has the copies 2 and 3.
fn copies(alloc: Global) -> Result<Cnf, AllocError>
    ensures { IfOk result (λ cnf. cnf ≡ two_copies) }
{
    let mut clauses = ClauseList::new(alloc);
    push_clause(alloc, &mut clauses, &[-2, 1])?;
    push_clause(alloc, &mut clauses, &[2, -1])?;
    push_clause(alloc, &mut clauses, &[-3, 1])?;
    push_clause(alloc, &mut clauses, &[3, -1])?;
    push_clause(alloc, &mut clauses, &[2, 3])?;
    push_clause(alloc, &mut clauses, &[-2, -3])?;
    Ok(Cnf::new(3, clauses))
}

/// Each copy implies the other.
fn merged(alloc: Global) -> Result<Log, AllocError>
    ensures { IfOk result (λ log. log ≡ equal_copies) }
{
    let first = Lits::from_slice(alloc, &[-2, 3])?;
    let second = Lits::from_slice(alloc, &[2, -3])?;
    let mut log = Log::new(alloc);
    log.push(Item::Add(Step::new(7, first, Ids::from_slice(alloc, &[1, 4])?)))?;
    log.push(Item::Add(Step::new(8, second, Ids::from_slice(alloc, &[3, 2])?)))?;
    Ok(log)
}

/// Whether the solver refutes the formula from these steps, by a log that the checker accepts.
fn is_refuted(alloc: Global, limit: u64) -> Result<bool, Fail>
    requires { 1 ≤ limit }
{
    let cnf = copies(alloc)?;
    let merged = merged(alloc)?;
    match solve(alloc, &cnf, &merged, limit)? {
        Answer::Refuted(log) => Ok(log.len() > merged.len() && accepts(alloc, &cnf, &log)?),
        _ => Ok(false),
    }
}

#[test]
fn steps_that_are_handed_in(rt: HostRuntime) -> Result<(), Fail> {
    assert!(rt; is_refuted(rt.alloc(), 100)?);
    Ok(())
}
