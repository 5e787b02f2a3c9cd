//! Trimmed logs and the laws about them. It has no code.
#![tactic(auto)]

pub mod trim_examples;
pub mod trim_laws;
