//! Worked runs of the jobs over files in memory. There is nothing here but tests.
#![tactic(auto)]

#[cfg(test)]
mod bundles;
#[cfg(test)]
mod checked;
#[cfg(test)]
mod converted;
#[cfg(test)]
mod flattened;
#[cfg(test)]
mod larger;
#[cfg(test)]
mod refused;
#[cfg(test)]
mod second;
#[cfg(test)]
mod simplified;
#[cfg(test)]
mod statuses;
#[cfg(test)]
mod sure;
#[cfg(test)]
mod texts;
#[cfg(test)]
mod trimmed;
