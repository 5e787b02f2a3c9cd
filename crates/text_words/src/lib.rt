//! Lines cut into words.
#![tactic(auto)]

pub mod words;
