//! Whether the error of an approximate net exceeds a level, decided by diagrams, without a log.
//!
//! `level` has the quality network of a level. `drawn` has the exact net's diagrams, which are made once, and
//! over the same nodes the diagrams of each approximate net, so that what both nets have in common is found
//! again. `orders` has orders of inputs, and `decider` keeps the diagrams in the best of these orders over
//! many questions. `words` joins the networks of the words into which the outputs are cut. `distances` has
//! the networks of the absolute and the signed error of a word, whose diagrams are small where two nets are
//! nearly equal, and `relative` the network of the relative error, which has smaller numbers besides. What
//! may be spent on each stands in `budgets`.
#![tactic(auto)]

pub mod budgets;
pub mod decider;
mod distances;
mod drawn;
pub mod level;
mod orders;
mod relative;
mod words;
