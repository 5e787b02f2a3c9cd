//! Formulas in conjunctive normal form.
ghost use Rattle.std.specs.Prelude.{◌≡◌};
ghost use Rattle.proof_parts.specs.Cnf.{IsCnf};

use crate::clause::ClauseList;
use std::marker::Model;

/// A number of variables, and clauses over them.
#[derive(Drop)]
pub struct Cnf {
    vars: u32,
    clauses: ClauseList,
}

impl Model for Cnf {
    ghost use Rattle.proof_semantics.specs.Formula.{Formula};
    ghost use Rattle.proof_parts.specs.Cnf.{IsCnf};

    ghost Value = { Formula };

    ghost view = { λ a. record { variables = a.vars; clauses = a.clauses } };

    ghost invariant = { λ a. IsCnf (record { variables = a.vars; clauses = a.clauses }) };
}

impl Cnf {
    /// The formula of these clauses over the variables 1 to `vars`.
    pub fn new(vars: u32, clauses: ClauseList) -> Cnf
        requires { IsCnf (record { variables = vars; clauses = clauses }) }
        ensures { result ≡ record { variables = vars; clauses = clauses } }
    {
        Cnf { vars, clauses }
    }

    /// How many variables there are.
    pub fn vars(&self) -> u32
        ensures value { result ≡ self.now.variables }
        ensures formed { IsCnf self.now }
    {
        self.vars
    }

    /// The clauses, in their order.
    pub fn clauses(&self) -> &ClauseList
        ensures value { result.now ≡ self.now.clauses }
        ensures formed { IsCnf self.now }
    {
        &self.clauses
    }
}
