//! Single simplifications of a net. Source: SALSA; the five kinds are this tool's own.

/// The most near signals of a table: a pair is made of two of them.
pub const MOST_NEAR_SIGNALS: usize = 16;

/// A change of one table. Definitions and code share this one type.
#[derive(Clone, Copy, Debug, Drop, PartialEq, Eq)]
pub enum Move {
    /// Table `t` becomes a constant.
    Const {
        t: u32,
        value: bool,
    },
    /// Table `t` loses a row.
    DropRow {
        t: u32,
        row: u32,
    },
    /// A row of table `t` asks for no value of a pin any more.
    DropLiteral {
        t: u32,
        row: u32,
        pin: u32,
    },
    /// Table `t` becomes a copy of signal `s`, or its opposite.
    Signal {
        t: u32,
        s: u32,
        flip: bool,
    },
    /// Table `t` becomes the conjunction of signals `s` and `u`, each of them plain or turned over, and its
    /// value plain or turned over.
    Pair {
        t: u32,
        s: u32,
        flip_s: bool,
        u: u32,
        flip_u: bool,
        flip: bool,
    },
}
