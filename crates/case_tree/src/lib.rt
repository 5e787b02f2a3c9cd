//! Refutations by cases: logs that refute the goal of a small net whose output is 0 at every input vector.
#![tactic(auto)]

mod front_lanes;
mod hints;
pub mod refute;
