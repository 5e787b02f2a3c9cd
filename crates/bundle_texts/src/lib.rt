//! The texts of a bundle's files: how a report is read back, and how formulas, logs and vectors are judged as
//! they are read.
#![tactic(auto)]

pub mod bits;
pub mod formula_check;
pub mod item_sink;
mod judge;
pub mod log_check;
mod pieces;
pub mod report_reading;
pub mod vector_line;
