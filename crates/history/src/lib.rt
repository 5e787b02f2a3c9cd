//! What was handed over or read so far, for contracts alone: it takes no memory, and keeping it costs nothing
//! at run time.
#![tactic(auto)]

pub mod reads;
pub mod text;
