//! Trimmed logs: of a refutation, only the steps from which its empty clause follows.
#![tactic(auto)]

mod kept_step;
mod named_ids;
mod root;
pub mod trim;
