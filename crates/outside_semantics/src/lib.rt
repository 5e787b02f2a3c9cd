//! What files and a sink tell, and files written one after another. It has no code.
#![tactic(auto)]

pub mod examples;
pub mod laws;
