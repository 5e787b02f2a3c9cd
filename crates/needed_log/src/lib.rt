//! A log without what its refutation does not need, numbered anew.
#![tactic(auto)]

mod items;
mod marks;
pub mod needed;
mod new_ids;
mod renumbering;
