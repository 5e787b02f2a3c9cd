//! Texts of several models as flat nets.
#![tactic(auto)]

pub mod hier;
mod judging;
pub mod reading;
pub mod refusal;
mod refusing;
#[cfg(test)]
mod tests;
