//! Chains of simplifications, tidying, moves and flips, and the laws about them. It has no code but the type
//! `Move` and its limit.
#![tactic(auto)]

pub mod move_examples;
pub mod move_laws;
pub mod moves;
pub mod simplification_examples;
pub mod simplification_laws;
pub mod tidy_examples;
pub mod tidy_laws;
