//! Nets read from BLIF texts.
#![tactic(auto)]

mod joining;
pub mod judging;
mod kept_lines;
pub mod line_list;
mod lines;
mod message;
pub mod name_list;
mod named_net;
pub mod named_table;
mod names;
mod numbering;
pub mod reading;
pub mod refusal;
pub mod statements;
