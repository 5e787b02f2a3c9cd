//! The exit numbers, each by what was answered. Source: this tool's own table.

/// The job was done, or the files of the bundle are a certificate.
pub const DONE: u8 = 0;

/// The words are no job.
pub const USAGE: u8 = 1;

/// IN is refused as a net.
pub const TEXT_REFUSED: u8 = 2;

/// Memory was wanting.
pub const NO_MEMORY: u8 = 3;

/// The conflicts of a question about a level of the error were spent.
pub const CONFLICTS_SPENT: u8 = 4;

/// A file that is needed could not be read.
pub const READ_FAULT: u8 = 5;

/// A file, the report or a standard stream could not be written or held.
pub const WRITE_FAULT: u8 = 6;

/// A clause of the certificate fails.
pub const REFUTED: u8 = 7;

/// A file of the bundle goes on past the budget of turns.
pub const ENDLESS: u8 = 8;

/// IN is refused as a hierarchy of models.
pub const HIERARCHY_REFUSED: u8 = 10;

/// IN is refused as an AND circuit.
pub const CIRCUIT_REFUSED: u8 = 11;

/// The second netlist is refused.
pub const SECOND_REFUSED: u8 = 12;

/// The second netlist has other ports than IN.
pub const OTHER_PORTS: u8 = 13;

/// The error of the second netlist exceeds the bound.
pub const ABOVE_BOUND: u8 = 14;
