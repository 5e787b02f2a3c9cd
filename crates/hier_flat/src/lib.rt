//! The flat net of models that are a hierarchy.
#![tactic(auto)]

mod counting;
pub mod flat_net;
mod flat_tables;
mod frames;
mod orders;
mod plans;
mod visits;
mod weights;
