//! Hashed and-inverter graphs, whose nodes are conjunctions of two literals, no two of them of the same pair;
//! and the graphs of nets.
#![tactic(auto)]

pub mod examples;
pub mod folding;
pub mod gate;
pub mod graph;
pub mod laws;
pub mod literal;
pub mod nets;
pub mod tables;
