//! Arithmetic networks and the four quality networks, and the laws about them. It has no code.
#![tactic(auto)]

pub mod examples;
pub mod laws;
