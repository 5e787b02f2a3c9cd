//! The values of graphs' nodes and of nets' signals at many patterns, in rows of bits.
#![tactic(auto)]

mod covers;
pub mod flip_sim;
mod net_rows;
#[cfg(test)]
mod net_tests;
mod row_blocks;
mod row_steps;
mod signal_row;
pub mod sim;
#[cfg(test)]
mod tests;
