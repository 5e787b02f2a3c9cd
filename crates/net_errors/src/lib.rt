//! The error of one net's outputs against another's, and the two nets that are compared.
#![tactic(auto)]

pub mod compared;
pub mod error;
pub mod net_error;
pub mod ports;
pub mod words;
