//! A text is read as the formula that it means. Source: DIMACS.
ghost use Rattle.std.specs.Prelude.{◌≡◌, [], Ok, IfOk, IfErr};
ghost use Rattle.proof_semantics.specs.Logs.{IsDerivation};
ghost use Rattle.solve_cnf.specs.Reading.{formula_of_text};
ghost use Rattle.solve_cnf.specs.Refusals.{Tells};
ghost use Rattle.solve_cnf.specs.Places.{refused_line, Names};
ghost use Rattle.solve_cnf.specs.Counts.{clause_counts, Counts};

use crate::formula_draft::FormulaDraft;
use crate::formula_error::ReadError;
use crate::lines::{line_number, lines_of};
use crate::problem_line::header_of;
use cnf_core::cnf::Cnf;
use std::alloc::Global;
use text_words::words::words_of;

/// The formula of a text. Each refusal but want of memory is the one that the definition gives.
#[tactic(auto, unfolding(crate::specs::Reading::formula_of_text, crate::specs::Places::refused_line, crate::specs::Counts::clause_counts))]
pub fn read_formula(alloc: Global, text: &[u8]) -> Result<Cnf, ReadError>
    ensures ok { IfOk result (λ cnf. formula_of_text text.now ≡ Ok cnf) }
    ensures err { IfErr result (λ told. Tells told (formula_of_text text.now)) }
    ensures place { IfErr result (λ told. Names told (refused_line text.now)) }
    ensures counts { IfErr result (λ told. Counts told (clause_counts text.now)) }
    ensures derivation { IfOk result (λ cnf. IsDerivation cnf []) }
{
    let lines = lines_of(alloc, text)?;
    let Some((first, rest)) = lines.as_slice().split_first() else {
        return Err(ReadError::NoHeader);
    };
    let words = words_of(alloc, first.1)?;
    let Some(header) = header_of(&words) else {
        let line = line_number(first);
        return Err(ReadError::BadHeader { line });
    };
    let mut draft = FormulaDraft::new(alloc, header.vars);
    draft.take_lines(rest)?;
    draft.finish(header.clauses)
}
