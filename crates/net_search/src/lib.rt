//! What a simplification asks of a search. So what is done with the answers is proved apart from how they are
//! found.
#![tactic(auto)]

pub mod judging;
pub mod search;
