//! The clauses of a net's tables without variables of rows: what a search reads in the place of a formula.
#![tactic(auto)]

mod checked;
pub mod direct;
mod equal_signals;
mod forms;
mod hints;
pub mod log_copy;
mod products;
mod steps;
