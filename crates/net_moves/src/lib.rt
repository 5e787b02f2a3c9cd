//! The moves of a net, as a list that is found move by move, and the net after a move.
//!
//! A net of 4,096 tables has tens of millions of moves, so they are never held: the list is a place among
//! them. Each kind of move of a table is a short list of its own. When the moves of a table are reached, the
//! signals that depend on it are marked, in one pass and in room that was made at the start, and the few
//! signals near the table are found.
#![tactic(auto)]

pub mod apply;
mod constants;
pub mod list;
mod literals;
pub mod moves;
mod near;
mod pairs;
mod rows;
mod signals;
mod table_moves;
