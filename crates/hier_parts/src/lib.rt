//! The models of a text, their names, and what is known of them by their names.
#![tactic(auto)]

pub mod driven;
pub mod interfaces;
pub mod models;
pub mod names;
pub mod statements;
pub mod users;
