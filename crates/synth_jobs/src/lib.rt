//! What is done with nets that were read or generated: a second net is judged against the exact one; it is
//! certified or simplified, and its bundle is written. A demonstration simplifies an adder.
#![tactic(auto)]

pub mod beginning;
pub mod delivery;
pub mod demonstration;
pub mod preparing;
pub mod request;
pub mod work;
