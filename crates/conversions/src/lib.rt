//! Jobs that turn the text IN into the text OUT: IN is read, all is computed, and then OUT is written.
#![tactic(auto)]

pub mod conversion;
pub mod input;
mod making;
pub mod output;
