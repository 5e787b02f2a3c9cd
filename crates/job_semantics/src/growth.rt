//! Whether an approximate net may be larger than the original. Source: this tool's own certificates.

/// Whether the net of a bundle may have more tables or more literals than the original. Definitions and code
/// share this one type.
#[derive(Clone, Copy, Debug, Drop, PartialEq, Eq)]
pub enum Growth {
    /// It may have no more of either: what `check` asks.
    Refused,
    /// It may have more: what `confirm` asks.
    Allowed,
}
