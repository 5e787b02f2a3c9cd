//! Jobs that check a bundle: a check, a confirmation, and the trimming of a log whose certificate stands.
#![tactic(auto)]

pub mod checking;
pub mod trimming;
