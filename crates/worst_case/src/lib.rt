//! Queries whether the error of an approximate net exceeds a level at some input, and the search for its
//! greatest error.
#![tactic(auto)]

pub mod beginning;
mod climbing;
pub mod exceeds;
mod graph_question;
pub mod judge;
mod judging;
mod margin;
pub mod maximum;
pub mod options;
pub mod policy;
mod range;
mod refutation;
mod repeated_query;
mod solver_query;
pub mod vectors_tried;
