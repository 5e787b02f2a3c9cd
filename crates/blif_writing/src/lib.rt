//! Nets written as BLIF texts.
#![tactic(auto)]

pub mod writing;
