//! How far a long search is, told while it goes on.
#![tactic(auto)]

pub mod progress;
