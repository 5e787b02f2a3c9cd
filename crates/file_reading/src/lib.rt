//! Files read in pieces, each piece handed on as it comes, within a budget of turns.
#![tactic(auto)]

pub mod front;
pub mod intake;
pub mod reading;
pub mod unread;
