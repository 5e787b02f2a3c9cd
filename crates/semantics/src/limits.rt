//! The limits of nets and errors, each named once: definitions, contracts and code cite these constants.
//! Source: this tool's own limits.

/// The most inputs of a net that is read.
pub const MOST_INPUTS: usize = 256;

/// The most outputs of a net that is read, and of nets whose error is asked for.
pub const MOST_OUTPUTS: usize = 64;

/// The most tables of a net that is read.
pub const MOST_TABLES: usize = 4_096;

/// The most pins of one table of a net that is read.
pub const MOST_TABLE_PINS: usize = 256;

/// The most pins of all tables of a net that is read.
pub const MOST_PINS: usize = 131_072;

/// The most rows of all tables of a net that is read.
pub const MOST_ROWS: usize = 32_768;

/// The most inputs with which every input vector is a pattern.
pub const FEW_INPUTS: u32 = 8;

/// The most inputs with which a query is answered by all cases, where the conflicts allow it.
pub const MOST_CASE_INPUTS: u32 = 15;

/// The largest error, level and bound: with at most `MOST_OUTPUTS` outputs no error of any metric is larger.
pub const LARGEST_ERROR: u128 = (1 << 84) - 1;

/// The most bytes of a netlist that is read as an input, in BLIF or AIGER.
pub const MOST_INPUT_BYTES: usize = 4_194_304;

/// The most bytes of a netlist that stands in a bundle.
pub const MOST_BUNDLE_BYTES: usize = 268_435_456;
