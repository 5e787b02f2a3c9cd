//! What is asked about the error of a net. Source: SALSA's quality constraint; the limit is this tool's own.
use semantics::metric::Metric;

/// How errors are measured, the greatest error that is allowed, and what a query about it may cost.
/// Definitions and code share this one type.
#[derive(Clone, Copy, Debug, PartialEq, Eq)]
pub struct Constraint {
    pub metric: Metric,
    /// The greatest error that is allowed.
    pub bound: u128,
    /// The most conflicts of each query.
    pub limit: u64,
}
