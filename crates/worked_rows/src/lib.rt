//! Worked rows of calls that no run of the program shows by itself. There is nothing here but tests.
#![tactic(auto)]

#[cfg(test)]
mod clauses;
#[cfg(test)]
mod errors;
#[cfg(test)]
mod flipped_carry;
#[cfg(test)]
mod half_adder_moves;
#[cfg(test)]
mod logs;
#[cfg(test)]
mod masks;
#[cfg(test)]
mod merged_steps;
#[cfg(test)]
mod merges;
#[cfg(test)]
mod metrics;
#[cfg(test)]
mod nets;
#[cfg(test)]
mod parts;
#[cfg(test)]
mod queries;
#[cfg(test)]
mod shrinking;
#[cfg(test)]
mod trimmed_logs;
