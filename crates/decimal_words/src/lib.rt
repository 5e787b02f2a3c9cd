//! Decimal numbers as words.
#![tactic(auto)]

pub mod decimal;
