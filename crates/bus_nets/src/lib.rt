//! Arithmetic networks on buses: adders, comparators, products with constants, counters. Each call appends
//! the tables of its definition, and says what number its bus has at every input.
#![tactic(auto)]

pub mod bus;
pub mod forms;
pub mod word_net;
