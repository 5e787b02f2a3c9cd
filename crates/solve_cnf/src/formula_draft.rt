//! Clauses as they are read, word after word.
ghost use Rattle.std.specs.Prelude.{◌≡◌, ◌<◌, ◌≤◌, ◌^◌, ℕ, List, [], ◌∷◌, ◌++◌, Ok, None, false, nat_abs};
ghost use Rattle.std.specs.Prelude.{flat_map, IfOk, IfErr, OnOk};
ghost use Rattle.semantics.specs.Texts.{Bytes};
ghost use Rattle.blif_semantics.specs.Lines.{words_of};
ghost use Rattle.proof_semantics.specs.Logs.{IsDerivation};
ghost use Rattle.solve_cnf.specs.Reading.{formula_with};
ghost use Rattle.solve_cnf.specs.Header.{held_number};
ghost use Rattle.solve_cnf.specs.FormulaDraft.{with_number, clauses_with};
ghost use Rattle.solve_cnf.specs.Refusals.{Tells};
ghost use Rattle.solve_cnf.specs.Slices.{line_texts};
ghost use Rattle.solve_cnf.specs.Places.{has_wrong, is_wrong, line_number, line_of, line_values, place_if};
ghost use Rattle.solve_cnf.specs.Places.{wrong_line, Names};
ghost use Rattle.solve_cnf.specs.Counts.{counts_with, counts_of, Counts};

use crate::formula_error::ReadError;
use crate::lines::{Line, line_number};
use crate::numbers::number_of;
use cnf_core::clause::{ClauseList, Lits};
use cnf_core::cnf::Cnf;
use std::alloc::{AllocError, Global};
use std::marker::Model;
use std::mem;
use text_words::words::words_of;

/// The clauses that are ended, and the literals of the clause that is not.
#[derive(Drop)]
pub struct FormulaDraft {
    alloc: Global,
    vars: u32,
    ended: ClauseList,
    begun: Lits,
}

impl Model for FormulaDraft {
    ghost use Rattle.solve_cnf.specs.FormulaDraft.{DraftValue, IsDraft};

    ghost Value = { DraftValue };

    ghost view = { λ a. record { variables = a.vars; ended = a.ended; begun = a.begun } };

    ghost invariant = { λ a. IsDraft (record { variables = a.vars; ended = a.ended; begun = a.begun }) };
}

impl FormulaDraft {
    /// No clauses yet, over `vars` variables. The call takes no memory.
    pub fn new(alloc: Global, vars: u32) -> FormulaDraft
        requires { vars < 2 ^ 31 }
        ensures { result ≡ record { variables = vars; ended = []; begun = [] } }
    {
        FormulaDraft {
            alloc,
            vars,
            ended: ClauseList::new(alloc),
            begun: Lits::new(alloc),
        }
    }

    /// Takes the next number: a literal of the clause, or 0 after its last.
    fn take_number(&mut self, number: i32) -> Result<(), AllocError>
        requires { nat_abs number ≤ self.old.variables }
        ensures variables { self.new.variables ≡ self.old.variables }
        ensures ok { OnOk result (self.new ≡ with_number self.old number) }
    {
        if number != 0 {
            return self.begun.push(number);
        }
        let clause = mem::replace(&mut self.begun, Lits::new(self.alloc));
        self.ended.push(clause)
    }

    /// Takes the next word, which stands on line `line`.
    fn take_word(&mut self, word: &[u8], line: usize) -> Result<(), ReadError>
        ensures variables { self.new.variables ≡ self.old.variables }
        ensures right { OnOk result (is_wrong self.old.variables word.now ≡ false) }
        ensures place { IfErr result
            (λ told. Names told (place_if (is_wrong self.old.variables word.now) line)) }
        ensures no_counts { IfErr result (λ told. counts_of told ≡ None) }
        ensures ok { OnOk result ((rest : List Bytes)
            → clauses_with self.new rest ≡ clauses_with self.old (word.now ∷ rest)) }
        ensures err { IfErr result (λ told. (rest : List Bytes)
            → Tells told (clauses_with self.old (word.now ∷ rest))) }
    {
        let number = number_of(word, self.vars, line)?;
        self.take_number(number)?;
        Ok(())
    }

    /// Takes the words of a line.
    fn take_line(&mut self, line: &Line) -> Result<(), ReadError>
        ensures variables { self.new.variables ≡ self.old.variables }
        ensures right { OnOk result (has_wrong self.old.variables (words_of line.now.1.now) ≡ false) }
        ensures place { IfErr result (λ told.
            Names told (place_if (has_wrong self.old.variables (words_of line.now.1.now))
            (line_number line.now.0))) }
        ensures no_counts { IfErr result (λ told. counts_of told ≡ None) }
        ensures ok { OnOk result ((rest : List Bytes)
            → clauses_with self.new rest ≡ clauses_with self.old (words_of line.now.1.now ++ rest)) }
        ensures err { IfErr result (λ told. (rest : List Bytes)
            → Tells told (clauses_with self.old (words_of line.now.1.now ++ rest))) }
    {
        let words = words_of(self.alloc, line.1)?;
        for word in words.as_slice() {
            self.take_word(word, line_number(line))?;
        }
        Ok(())
    }

    /// Takes the words of the last lines of a text.
    pub fn take_lines(&mut self, lines: &[Line]) -> Result<(), ReadError>
        ensures variables { self.new.variables ≡ self.old.variables }
        ensures place { IfErr result
            (λ told. Names told (wrong_line self.old.variables (line_values lines.now))) }
        ensures no_counts { IfErr result (λ told. counts_of told ≡ None) }
        ensures ok { OnOk result (clauses_with self.new []
            ≡ clauses_with self.old (flat_map words_of (line_texts lines.now))) }
        ensures err { IfErr result (λ told.
            Tells told (clauses_with self.old (flat_map words_of (line_texts lines.now)))) }
    {
        for line in lines {
            self.take_line(line)?;
        }
        Ok(())
    }

    /// The formula, where the last clause is ended and there are `count` clauses.
    pub fn finish(self, count: u64) -> Result<Cnf, ReadError>
        ensures no_place { IfErr result (λ told. line_of told ≡ None) }
        ensures ok { IfOk result (λ cnf. (clauses : ℕ) → count ≡ held_number clauses
            → formula_with (record { variables = self.variables; clauses = clauses }) (clauses_with self [])
            ≡ Ok cnf) }
        ensures err { IfErr result (λ told. (clauses : ℕ) → count ≡ held_number clauses
            → Tells told (formula_with (record { variables = self.variables; clauses = clauses })
            (clauses_with self []))) }
        ensures counts { IfErr result (λ told. (clauses : ℕ) → count ≡ held_number clauses
            → Counts told (counts_with (record { variables = self.variables; clauses = clauses })
            (clauses_with self []))) }
        ensures derivation { IfOk result (λ cnf. IsDerivation cnf []) }
    {
        if !self.begun.is_empty() {
            return Err(ReadError::Unended);
        }
        let found = self.ended.as_slice().len();
        if found as u64 != count {
            return Err(ReadError::WrongCount { told: count, found });
        }
        Ok(Cnf::new(self.vars, self.ended))
    }
}
