//! The variables that a circuit defines, numbered in order, with a map from variables to numbers.
ghost use Rattle.std.specs.Prelude.{◌≡◌, ◌<◌, ◌≤◌, ◌+◌, ◌/◌, ◌^◌, true, not, ◌||◌, ◌==◌, [], ◌∷◌, ◌++◌};
ghost use Rattle.std.specs.Prelude.{Result, None, IfOk, OnOk, IfErr, length, map};
ghost use Rattle.std.specs.List.{find, flat_map};
ghost use Rattle.semantics.specs.Net.{NetValue};
ghost use Rattle.aiger_semantics.specs.CircuitLines.{Refusal, twice, undefined};
ghost use Rattle.aiger_semantics.specs.ReadNet.{variables, signal_of_variable};
ghost use Rattle.aiger_semantics.specs.Reading.{has_variable, first_repeated, operands, first_undefined};
ghost use Rattle.aiger_semantics.specs.Reading.{unless_refused};
ghost use Rattle.aiger_text.specs.Refusals.{Tells};

use crate::ands::Ands;
use crate::literal::Literal;
use crate::refusal::AigerRefusal;
use aiger_semantics::and_line::AndLine;
use net_core::items::Signal;
use numbered_keys::keys::NumberedKeys;
use std::alloc::{AllocError, Global};
use std::marker::Model;

/// Variables that differ, in order. A variable is found by comparisons with a few of them.
#[derive(Drop)]
pub(crate) struct Variables {
    variables: NumberedKeys<u32>,
}

impl Model for Variables {
    ghost use Rattle.std.specs.Prelude.{List, ℕ, length, ◌<◌, ◌^◌};

    ghost Value = { List ℕ };

    ghost view = { λ a. a.variables };

    ghost invariant = { λ a. length a.variables < 2 ^ 31 };
}

impl Variables {
    fn new(alloc: Global) -> Variables
        ensures { result ≡ [] }
    {
        Variables {
            variables: NumberedKeys::new(alloc),
        }
    }

    /// Adds a variable, if it is new.
    fn add(&mut self, variable: u32) -> Result<bool, AllocError>
        requires { length self.old + 1 < 2 ^ 31 }
        ensures new { IfOk result (λ b. b ≡ not (has_variable self.old variable)) }
        ensures added { IfOk result (λ b. b ≡ true → self.new ≡ self.old ++ variable ∷ []) }
    {
        let is_new = self.variables.add(variable)?;
        Ok(is_new)
    }

    /// These variables, or the refusal of the first that stands a second time.
    pub(crate) fn of(alloc: Global, variables: &[u32]) -> Result<Variables, AigerRefusal>
        requires few { length variables.now < 2 ^ 31 }
        ensures ok { IfOk result (λ all. all ≡ variables.now) }
        ensures differ { OnOk result (first_repeated variables.now ≡ None) }
        ensures err { IfErr result (λ told. (rest : Result NetValue Refusal)
            → Tells told (unless_refused (first_repeated variables.now) twice rest)) }
    {
        let mut all = Variables::new(alloc);
        for variable in variables {
            if !all.add(*variable)? {
                return Err(AigerRefusal::Twice(*variable));
            }
        }
        Ok(all)
    }

    /// The signal of a variable, which is that of its place.
    pub(crate) fn signal(&self, variable: u32) -> Signal
        ensures { result ≡ signal_of_variable self.now variable }
    {
        match self.variables.place(&variable) {
            Some(place) => place as u32,
            None => 0,
        }
    }

    /// Whether a variable is that of the constant, or one of these variables.
    fn knows(&self, variable: u32) -> bool
        ensures { result ≡ (variable == 0 || has_variable self.now variable) }
    {
        variable == 0 || self.variables.contains(&variable)
    }

    /// The first operand of these lines that is not known.
    fn first_unknown_operand(&self, lines: &[AndLine]) -> Option<u32>
        ensures { result ≡ find (λ v. not (v == 0 || has_variable self.now v)) (flat_map operands lines.now) }
    {
        for line in lines {
            if !self.knows(line.left / 2) {
                return Some(line.left / 2);
            }
            if !self.knows(line.right / 2) {
                return Some(line.right / 2);
            }
        }
        None
    }

    /// The first variable of these literals that is not known.
    fn first_unknown_literal(&self, literals: &[Literal]) -> Option<u32>
        ensures { result ≡ find (λ v. not (v == 0 || has_variable self.now v))
            (map (λ literal. literal / 2) literals.now) }
    {
        for literal in literals {
            if !self.knows(*literal / 2) {
                return Some(*literal / 2);
            }
        }
        None
    }

    /// The first variable that the circuit uses and that is not known: first the operands of its lines, and
    /// then its outputs.
    fn first_undefined(&self, circuit: &Ands) -> Option<u32>
        requires { self.now ≡ variables circuit.now }
        ensures { result ≡ first_undefined circuit.now }
    {
        let operand = self.first_unknown_operand(circuit.lines());
        if operand.is_some() {
            return operand;
        }
        self.first_unknown_literal(circuit.outputs())
    }

    /// Tests that all variables that the circuit uses are known. Else returns the refusal of the first
    /// variable that is not.
    pub(crate) fn know_all(&self, circuit: &Ands) -> Result<(), AigerRefusal>
        requires { self.now ≡ variables circuit.now }
        ensures ok { OnOk result (first_undefined circuit.now ≡ None) }
        ensures err { IfErr result (λ told. (rest : Result NetValue Refusal)
            → Tells told (unless_refused (first_undefined circuit.now) undefined rest)) }
    {
        match self.first_undefined(circuit) {
            Some(variable) => Err(AigerRefusal::Undefined(variable)),
            None => Ok(()),
        }
    }
}
