//! AND circuits: the circuit of a net, its AIGER text, and nets that are read from AIGER texts.
#![tactic(auto)]

pub mod ands;
mod circuit_lines;
mod circuit_net;
mod circuit_reading;
mod conjunctions;
mod header;
mod joined_literals;
mod lines;
pub mod literal;
mod loops;
mod numbers;
mod place_names;
mod ports;
pub mod reading;
pub mod refusal;
mod sections;
mod signals;
mod symbol;
mod symbols;
mod text_lines;
#[cfg(test)]
mod text_rows;
mod variables;
pub mod writing;
