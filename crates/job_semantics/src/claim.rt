//! What a certificate claims. Source: this tool's own certificates.
use crate::growth::Growth;
use semantics::metric::Metric;

/// What is claimed of an approximate net: how large its error against the original may be, and whether it may
/// be larger than the original. Definitions and code share this one type.
#[derive(Clone, Copy, Debug, Drop, PartialEq, Eq)]
pub struct Claim {
    pub metric: Metric,
    /// The greatest error that is allowed.
    pub bound: u128,
    pub growth: Growth,
}
