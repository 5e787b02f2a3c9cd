//! Unit propagation along hints. Source: LRAT with positive hints.
ghost use Rattle.std.specs.Prelude.{◌≡◌, ◌⊎◌, IfOk, IfSome, OnOk};
ghost use Rattle.std.specs.FinMap.{get};
ghost use Rattle.proof_semantics.specs.Logs.{with_negations, open_literals, hint_answer, hints_answer};
ghost use Rattle.proof_parts.specs.Literals.{IsLiteral, AreLiterals};

use crate::held_clauses::HeldClauses;
use crate::literal_set::{LiteralSet, negation};
use proof_parts::literal::Literal;
use proof_semantics::step_refusal::StepRefusal;
use std::alloc::AllocError;

/// Puts the negations of the literals into the set.
pub fn insert_negations(set: &mut LiteralSet, literals: &[Literal]) -> Result<(), AllocError>
    requires { AreLiterals literals.now }
    ensures { OnOk result (set.new ≡ with_negations set.old literals.now) }
{
    for literal in literals {
        set.insert(negation(*literal))?;
    }
    Ok(())
}

/// What a clause gives as a hint, given the set so far.
#[inline(always)]
fn hint_gives(
    set: &LiteralSet,
    clause: &[Literal],
    hint: u64,
    last: bool,
) -> Result<Option<Literal>, StepRefusal>
    requires { AreLiterals clause.now }
    ensures value { result ≡ hint_answer hint last (open_literals set.now clause.now) }
    ensures formed { IfOk result (λ found. IfSome found IsLiteral) }
{
    let mut found: Option<Literal> = None;
    for literal in clause {
        if set.makes_false(*literal) {
            continue;
        }
        if last {
            return Err(StepRefusal::NoConflict);
        }
        match found {
            None => found = Some(*literal),
            Some(first) => {
                if first != *literal {
                    return Err(StepRefusal::NotUnit(hint));
                }
            }
        }
    }
    if last {
        return Ok(None);
    }
    match found {
        None => Err(StepRefusal::NotUnit(hint)),
        Some(first) => Ok(Some(first)),
    }
}

/// Takes the hints in order; the literal that a hint gives joins the set.
pub fn follow(held: &HeldClauses, set: &mut LiteralSet, hints: &[u64]) -> Result<(), StepRefusal>
    ensures { (result ≡ Err StepRefusal.OutOfMemory)
        ⊎ (result ≡ hints_answer (get held.now.held) set.old hints.now) }
{
    for (i, hint) in hints.iter().enumerate() {
        let last = i + 1 == hints.len();
        let clause = match held.get(*hint) {
            None => return Err(StepRefusal::UnknownId(*hint)),
            Some(clause) => clause,
        };
        match hint_gives(set, clause.as_slice(), *hint, last)? {
            None => return Ok(()),
            Some(literal) => match set.insert(literal) {
                Ok(()) => {}
                Err(_) => return Err(StepRefusal::OutOfMemory),
            },
        }
    }
    Err(StepRefusal::NoConflict)
}
