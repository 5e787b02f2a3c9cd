//! The first line of a circuit's text. Source: the ASCII form of AIGER.

/// The greatest variable, and the numbers of inputs, latches, outputs and AND lines.
#[derive(Clone, Copy, Debug, Drop, PartialEq, Eq)]
pub struct Header {
    pub greatest: u32,
    pub inputs: u32,
    pub latches: u32,
    pub outputs: u32,
    pub ands: u32,
}
