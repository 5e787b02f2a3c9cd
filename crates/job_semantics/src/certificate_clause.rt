//! The clauses of a certificate, in the order in which they are tested. Source: this tool's own bundles.

/// Which clause of a certificate. Definitions and code share this one type.
#[derive(Clone, Copy, Debug, Drop, PartialEq, Eq)]
pub enum Clause {
    /// `.blif` is read as a net.
    Netlist,
    /// That net has the ports of the original.
    Ports,
    /// `.txt` is a report for the metric and the bound.
    ReportForm,
    /// The maximum is within the bound.
    MaximumWithin,
    /// `.wit` is lines of input vectors, and the witness is the first.
    Witness,
    /// The error at the witness is the maximum.
    Attained,
    /// `.cnf` is the miter at the maximum.
    Formula,
    /// `.lrat` is a log that refutes the miter.
    Log,
    /// The counts are those of the two nets, and none grew where growth is refused.
    Counts,
    /// Where the report says `minimal yes`: each move of the bundle's net, as it was read, that the report's
    /// version knows is broken by some line of `.wit`.
    Minimal,
}
