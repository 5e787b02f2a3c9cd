//! What a text of several models means: its models, the values of their places, and its flat net. It has no
//! code.
#![tactic(auto)]

pub mod examples;
pub mod laws;
