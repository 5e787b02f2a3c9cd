//! Structural merges: logs that make alike tables of a net equal before a search.
#![tactic(auto)]

mod form;
mod hint_chain;
mod hints;
mod level_lists;
mod levels;
mod merged;
pub mod merges;
mod placed;
mod places;
mod steps;
mod table_steps;
