//! Tidying of nets.
#![tactic(auto)]

mod first_flags;
mod flags;
mod marks;
mod net_draft;
mod net_rules;
mod readers;
mod rule;
mod rules;
mod table_draft;
mod tables;
pub mod tidy;
