//! Whether the error of an approximate net exceeds a level, asked of the solver over a hashed graph.
#![tactic(auto)]

mod clauses;
mod cone;
mod difference;
pub mod gap;
mod gap_question;
mod gap_steps;
mod goal;
mod guide;
pub mod levels;
mod low_places;
mod nearness;
mod question;
