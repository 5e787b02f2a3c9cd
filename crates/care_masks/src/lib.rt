//! Approximation don't-cares: at which patterns turning a table's value over makes the error exceed the
//! bound.
//!
//! A move changes one table. Where it leaves the table's value, every output stays; where it changes that
//! value, the outputs are those of the net with the value turned over. So the patterns at which the turned
//! value exceeds the bound are found once for each table, and after that a move costs only the rows of its
//! own table, at a few patterns.
//!
//! Patterns are evaluated 64 at a time: one word for each signal, one bit for each pattern.
#![tactic(auto)]

mod care;
mod differences;
mod dropped;
pub mod fixed;
mod flips;
pub mod growing;
mod growing_blocks;
mod judged_nets;
mod moved_values;
mod overlaps;
