//! The parts of proofs: literals, clauses, formulas, and logs of steps.
#![tactic(auto)]

pub mod clause;
pub mod cnf;
pub mod literal;
pub mod log;
