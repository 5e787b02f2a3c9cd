//! The limits of a netlist that is read, in the order in which they are told. Source: this tool's own limits.

/// What there is too much of. Definitions and code share this one type.
#[derive(Clone, Copy, Debug, Drop, PartialEq, Eq)]
pub enum Which {
    /// More than 256 inputs.
    Inputs,
    /// More than 64 outputs.
    Outputs,
    /// More than 4,096 tables.
    Tables,
    /// More than 256 pins of one table.
    Pins,
    /// More than 131,072 pins in all.
    AllPins,
    /// More than 32,768 rows in all.
    Rows,
}
