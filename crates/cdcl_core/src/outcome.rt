//! What a search that forgets comes to.
use net_parts::items::Bits;
use proof_parts::log::Log;

/// What further conflicts show of a formula.
#[derive(Drop)]
pub enum Outcome {
    /// A value for each variable; with these values the formula is satisfied.
    Model(Bits),
    /// A log that refutes the formula.
    Refuted(Log),
    /// A longer derivation: the conflicts that were allowed are spent.
    Open(Log),
}
