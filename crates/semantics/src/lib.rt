//! The definitions on which everything stands, and the laws about them. It has no code but the types `Mark`,
//! `Which`, `Kind` and `Metric` and the limits.
#![tactic(auto)]

pub mod examples;
pub mod laws;
pub mod limits;
pub mod mark;
pub mod metric;
pub mod which;
