//! Networks on buses, and the array multiplier that is made from them.
#![tactic(auto)]

pub mod multiplier;

pub use bus_nets::{bus, word_net};
