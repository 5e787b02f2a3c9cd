//! The guide of a search over the clauses of a net: which of its signals may be equal, by simulation.
#![tactic(auto)]

mod classes;
pub mod guide;
mod patterns;
