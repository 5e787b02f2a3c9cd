//! Nets in memory: their values, their sizes, the order of their tables, and why parts make none.
#![tactic(auto)]

mod dependence;
pub mod limits;
mod names;
pub mod net;
pub mod order;
pub mod refusal;
mod undriven;

pub use net_parts::{items, mark, name, row, table};
