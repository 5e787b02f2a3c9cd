//! The files of a bundle, each by its ending. Source: this tool's own bundles.

/// Which file of a bundle. Definitions and code share this one type.
#[derive(Clone, Copy, Debug, Drop, PartialEq, Eq)]
pub enum Ending {
    /// `.blif`, the approximate netlist.
    Netlist,
    /// `.cnf`, the formula that says that some error exceeds the maximum.
    Formula,
    /// `.lrat`, the log that refutes the formula.
    Log,
    /// `.wit`, the witness, and behind it vectors that break further moves.
    Vectors,
    /// `.txt`, the report.
    Report,
}
