//! The jobs of the command line, by the search of the program: the job that the words name is carried out
//! over the files and the sink that are handed in. The top call is [`run::run`].
#![tactic(auto)]

pub mod run;
