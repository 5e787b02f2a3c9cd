//! The checker of logs: what it accepts derives, and where it ends with the empty clause the formula is
//! unsatisfiable.
#![tactic(auto)]

pub mod checker;
mod held_clauses;
mod hints;
mod literal_set;
