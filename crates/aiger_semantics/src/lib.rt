//! AND circuits as AIGER writes them: their values, the circuit of a net and its text, what a text is read
//! as, and the laws about them. It has no code but the types `AndLine` and `Header`.
#![tactic(auto)]

pub mod and_line;
pub mod examples;
pub mod header;
pub mod laws;
