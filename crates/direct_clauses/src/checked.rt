//! A log is checked before it is handed over, so nothing is taken for granted of how its steps were found.
ghost use Rattle.std.specs.Prelude.{◌+◌, ◌<◌, ◌^◌, List, [], ◌∷◌, ◌++◌, length, All, IfOk, IsTrue};
ghost use Rattle.proof_semantics.specs.Clauses.{Clause, IsLiteralOf};
ghost use Rattle.proof_semantics.specs.Logs.{LogItem, IsSoundLog, IsDerivation, AddsInTurn};
ghost use Rattle.lrat_check.specs.Checker.{StandsAfter};
ghost use Rattle.direct_clauses.specs.Turns.{AddsAt};
ghost use Rattle.proof_parts.specs.Literals.{IsLiteral, AreLiterals};

use lrat_check::checker::Checker;
use proof_parts::cnf::Cnf;
use proof_parts::literal::Literal;
use proof_parts::log::{Item, Log};
use proof_semantics::step_refusal::StepRefusal;
use std::alloc::{AllocError, Global};

/// The length above which a log is refused.
const LONGEST: usize = 1 << 60;

/// Whether a literal's variable is one of the first `variables`.
fn is_literal_of(variables: u32, literal: Literal) -> bool
    requires { IsLiteral literal }
    ensures { IsTrue result → IsLiteralOf variables literal }
{
    literal.unsigned_abs() <= variables
}

/// Whether the variables of these literals are of the first `variables`.
fn are_literals_of(variables: u32, literals: &[Literal]) -> bool
    requires { AreLiterals literals.now }
    ensures { IsTrue result → All (IsLiteralOf variables) literals.now }
{
    for literal in literals {
        if !is_literal_of(variables, *literal) {
            return false;
        }
    }
    true
}

/// Whether an item is an addition with this id, of literals of the first `variables` variables.
fn adds_at(variables: u32, id: u64, item: &Item) -> bool
    ensures { IsTrue result → AddsAt variables id item.now }
{
    match item {
        Item::Add(step) => { step.id() == id && are_literals_of(variables, step.lits().as_slice()) }
        Item::Remove(_) => false,
    }
}

/// Whether the items are additions with the ids behind `last` in turn, of literals of the first `variables`
/// variables.
fn add_in_turn(variables: u32, last: u64, items: &[Item]) -> bool
    requires { last + length items.now < 2 ^ 63 }
    ensures { IsTrue result → AddsInTurn variables last items.now }
{
    for (i, item) in items.iter().enumerate() {
        if !adds_at(variables, last + i as u64 + 1, item) {
            return false;
        }
    }
    true
}

/// Whether the checker accepts an addition.
fn accepts(checker: &mut Checker, item: &Item) -> Result<bool, AllocError>
    ensures { IfOk result (λ accepted. IsTrue accepted → (formula : List Clause) (log : List LogItem)
        → StandsAfter formula log checker.old → StandsAfter formula (log ++ item.now ∷ []) checker.new) }
{
    match item {
        Item::Add(step) => match checker.step(step) {
            Ok(()) => Ok(true),
            Err(refusal) => match refusal {
                StepRefusal::OutOfMemory => Err(AllocError),
                _ => Ok(false),
            },
        },
        Item::Remove(_) => Ok(false),
    }
}

/// Whether each item is accepted.
fn is_accepted(alloc: Global, formula: &Cnf, items: &[Item]) -> Result<bool, AllocError>
    ensures { IfOk result (λ accepted. IsTrue accepted → IsSoundLog formula.now.clauses items.now) }
{
    let mut checker = Checker::new(alloc, formula)?;
    for item in items {
        if !accepts(&mut checker, item)? {
            return Ok(false);
        }
    }
    Ok(true)
}

/// Whether the log is a derivation from the formula.
pub(crate) fn is_derivation(alloc: Global, formula: &Cnf, log: &Log) -> Result<bool, AllocError>
    ensures { IfOk result (λ is. IsTrue is → IsDerivation formula.now log.now) }
{
    let clauses = formula.clauses().len();
    if clauses > LONGEST || log.len() > LONGEST {
        return Ok(false);
    }
    if !add_in_turn(formula.vars(), clauses as u64, log.as_slice()) {
        return Ok(false);
    }
    is_accepted(alloc, formula, log.as_slice())
}
