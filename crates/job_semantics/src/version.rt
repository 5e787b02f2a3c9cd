//! The versions of a bundle. Source: this tool's own bundles.

/// Which version of a bundle a report is of. Definitions and code share this one type. The versions differ in
/// the moves that the last clause of a certificate speaks of.
#[derive(Clone, Copy, Debug, Drop, PartialEq, Eq)]
pub enum Version {
    /// `salsa 1`: the moves without those to two signals.
    One,
    /// `salsa 2`: all moves.
    Two,
}
