//! Sums of literals of a hashed graph, each with a weight: how far apart two words are, by adders and by what
//! the words have in common.
#![tactic(auto)]

pub mod adder;
pub mod cuts;
pub mod effect;
#[cfg(test)]
mod effect_tests;
pub mod examples;
pub mod finding;
pub mod reduction;
pub mod samples;
pub mod sum;
pub mod term;
#[cfg(test)]
mod tests;
pub mod weights;
pub mod word;
