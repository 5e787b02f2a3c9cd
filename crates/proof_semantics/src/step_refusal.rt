//! Why a step of a log is refused. Source: LRAT.

/// The first reason in the order of the step. Definitions and code share this one type.
#[derive(Clone, Copy, Debug, Drop, PartialEq, Eq)]
pub enum StepRefusal {
    /// The step's id is not above all earlier ones.
    NotRising(u64),
    /// No clause is held under this hint.
    UnknownId(u64),
    /// This hint, which is not the last, has not exactly one literal that is not false.
    NotUnit(u64),
    /// There is no hint, or the last one has a literal that is not false.
    NoConflict,
    /// There is no memory for the step; no definition gives this.
    OutOfMemory,
}
