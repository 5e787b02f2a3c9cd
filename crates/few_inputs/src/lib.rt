//! The search for nets with at most eight inputs, by every input vector. It asks neither diagrams nor a
//! solver, so a program that needs no more is proved long before the search of all nets.
#![tactic(auto)]

mod judge;
pub mod search;
