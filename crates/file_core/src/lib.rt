//! The outside of the program: files and a sink as traits, with implementations in memory.
#![tactic(auto)]

pub mod append;
mod calls;
mod cursor;
pub mod fault;
pub mod files;
pub mod lists;
pub mod memory_files;
pub mod memory_sink;
pub mod page;
pub mod sink;
pub mod sure_files;
pub mod sure_sink;
pub mod turns;
pub mod word;
