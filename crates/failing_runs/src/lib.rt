//! Runs over files and a sink in memory, of which each call fails in turn. There is nothing here but tests.
#![tactic(auto)]

#[cfg(test)]
mod checking;
#[cfg(test)]
mod putting;
#[cfg(test)]
mod writing;
