//! Bundles: how the five files of a synthesis are read back and checked.
#![tactic(auto)]

mod asked;
mod broken_moves;
pub mod check;
mod claim;
mod file_texts;
mod judged;
mod judging;
pub mod load;
pub mod loaded;
mod minimality;
mod vectors_check;
pub mod verdict;
