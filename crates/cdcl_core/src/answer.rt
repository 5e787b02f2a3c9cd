//! What the solver answers.
use net_parts::items::Bits;
use proof_parts::log::Log;

/// What a search comes to.
#[derive(Drop)]
pub enum Answer {
    /// A value for each variable; with these values the formula is satisfied.
    Model(Bits),
    /// A log that refutes the formula.
    Refuted(Log),
    /// A log of as many conflicts as were allowed.
    Spent(Log),
}
