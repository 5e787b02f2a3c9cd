//! What a line of a netlist is, by its first word. Source: BLIF's commands.

/// Definitions and code share this one type.
#[derive(Clone, Copy, Debug, Drop, PartialEq, Eq)]
pub enum Kind {
    Model,
    Inputs,
    Outputs,
    Names,
    End,
    /// Another word with a leading dot.
    Command,
    /// Any other word.
    Row,
}
