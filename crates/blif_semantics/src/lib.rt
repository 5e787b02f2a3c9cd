//! What the text of a netlist means. It has no code but the type `Kind`.
#![tactic(auto)]

pub mod examples;
pub mod kind;
pub mod laws;
