//! The words of the command line: which job they name.
#![tactic(auto)]

mod bundle_names;
mod file_words;
mod metric_words;
pub mod net_jobs;
pub mod usage;
pub mod words;
