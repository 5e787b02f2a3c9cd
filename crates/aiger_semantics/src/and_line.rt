//! The lines of AND circuits. Source: AIGER.

/// A variable that is the conjunction of two literals. Definitions and code share this one type.
#[derive(Clone, Copy, Debug, Drop, PartialEq, Eq)]
pub struct AndLine {
    pub variable: u32,
    pub left: u32,
    pub right: u32,
}
