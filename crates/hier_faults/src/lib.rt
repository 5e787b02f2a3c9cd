//! The first fault of the models of a text, where they are no hierarchy.
#![tactic(auto)]

pub mod faults;
pub mod faulty;
mod users;
mod whole;
