//! The jobs of the command line, by any search: the job that the words name is carried out over the files and
//! the sink that are handed in. The top call is [`run::run_followed`].
#![tactic(auto)]

mod commands;
mod delivery;
mod demonstration;
pub mod outcome;
pub mod run;
mod second;
mod synthesis;
