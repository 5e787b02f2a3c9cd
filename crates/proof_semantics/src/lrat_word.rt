//! What a token of a log's text is. Source: LRAT, as this tool reads it.

/// Definitions and code share this one type.
#[derive(Clone, Copy, Debug, Drop, PartialEq, Eq)]
pub enum LratWord {
    /// The letter `d`.
    Letter,
    /// Digits, behind a minus or not; the number is below 2^63 in size.
    Number { negative: bool, size: u64 },
    /// Anything else.
    Malformed,
}
