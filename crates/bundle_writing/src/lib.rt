//! Bundles: what a synthesis leaves behind, and how it is written as five files.
#![tactic(auto)]

pub mod bits;
pub mod bundle;
pub mod report_lines;
mod report_writing;
pub mod stem;
pub mod vectors_writing;
pub mod writing;
