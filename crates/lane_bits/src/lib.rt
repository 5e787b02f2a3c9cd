//! Rows of bits, kernels on them, and sets of input vectors that are held as such rows.
#![tactic(auto)]

mod bit_row;
mod counting_rows;
mod eights;
pub mod examples;
pub mod input_order;
pub mod kernels;
pub mod patterns;
