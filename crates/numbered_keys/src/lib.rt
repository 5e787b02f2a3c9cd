//! Keys numbered in the order in which they were added, and found by comparisons.
#![tactic(auto)]

pub mod keys;
