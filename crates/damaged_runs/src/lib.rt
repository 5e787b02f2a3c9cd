//! Checks of a damaged bundle over files in memory. There is nothing here but tests.
#![tactic(auto)]

#[cfg(test)]
mod damages;
