//! The numbers with which a process of this tool exits.
#![tactic(auto)]

pub mod numbers;
