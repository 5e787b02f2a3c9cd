//! Runs over files and a sink in memory, for the tests of whole runs: their words, what they find and what
//! they leave.
#![tactic(auto)]

pub mod bundles;
pub mod half_adder;
pub mod held;
pub mod runs;
