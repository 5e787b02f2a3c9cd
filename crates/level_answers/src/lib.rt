//! What is answered to the questions whether the error of an approximate net exceeds a level and how large it
//! is. So what is done with the answers is proved apart from how they are found.
#![tactic(auto)]

pub mod margin;
pub mod query;
