//! The values of nets at 64 input vectors at a time, and the errors of their outputs there.
//!
//! Patterns are evaluated 64 at a time: one word for each signal, one bit for each pattern.
#![tactic(auto)]

pub mod blocks;
mod changes;
pub mod cone_order;
mod graph_blocks;
mod graph_words;
pub mod lanes;
pub mod outputs;
pub mod reference;
mod schedule;
pub mod table_words;
pub mod trials;
pub mod values;
mod wide_blocks;
mod wide_lanes;
mod wide_numbers;
mod wide_outputs;
mod wide_relative;
mod wide_words;
pub mod word_list;
