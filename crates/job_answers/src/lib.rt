//! What a run answers: its status, with the exit number and the line on standard error, and the status that
//! tells a refusal, or why a file was not read.
#![tactic(auto)]

mod bits_text;
pub mod refused;
pub mod status;
pub mod unread;
