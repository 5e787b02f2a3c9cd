//! The net of the demonstration: a generated ripple-carry adder.
#![tactic(auto)]

pub mod adder;
mod stage;
