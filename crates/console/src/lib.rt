//! What stands between a program and its user: the words of the command line, files, standard output, and a
//! line on a terminal.
#![tactic(auto)]

pub mod arguments;
mod counted;
pub mod paths;
pub mod program;
pub mod real_files;
pub mod real_sink;
pub mod streams;
pub mod terminal;
#[cfg(test)]
mod tests;
