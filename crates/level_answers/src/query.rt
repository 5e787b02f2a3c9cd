//! What a query answers, and the search for the greatest error.
use net_core::items::Bits;
use net_core::net::Net;
use proof_parts::log::Log;

/// A query that ended without an answer.
#[derive(Drop)]
pub struct Spent {
    /// The approximate net.
    pub net: Net,
    /// The error level.
    pub k: u128,
    /// The number of steps of the log that come before the conflicts.
    pub merged: u64,
    /// The merged steps, and then as many conflicts as the query was allowed.
    pub log: Log,
}

/// Whether an error exceeds a level, or the spent query.
#[derive(Drop)]
pub enum Exceed {
    /// An input vector whose error exceeds the level.
    Over(Bits),
    /// A log that refutes the miter: no error exceeds the level.
    Never(Log),
    /// The allowed conflicts were spent without an answer.
    Spent(Spent),
}

/// The greatest error, or the spent query of the search for it.
#[derive(Drop)]
pub enum Maximum {
    /// The greatest error, an input vector that has this error, and a log that refutes the miter at this
    /// error.
    Found { max: u128, witness: Bits, log: Log },
    /// The conflicts of a query were spent without an answer.
    Spent(Spent),
}
