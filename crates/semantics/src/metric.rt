//! The error metrics. Source: SALSA's quality functions; signed words are in two's complement.

/// How two words are compared.
#[derive(Clone, Copy, Debug, PartialEq, Eq)]
pub enum Kind {
    /// The absolute value of the difference of the two numbers.
    Abs,
    /// The absolute error in parts per million of the exact number, rounded up; the exact number 0 counts as
    /// 1.
    Rel,
    /// The number of bits that differ.
    Ham,
    /// The absolute value of the difference of the two numbers, each read in two's complement.
    Sabs,
}

/// How two lists of outputs are compared: they are cut into words, and the word that errs most counts.
/// Definitions and code share this one type.
#[derive(Clone, Copy, Debug, PartialEq, Eq)]
pub struct Metric {
    /// How two words are compared.
    pub kind: Kind,
    /// The number of outputs in each word, of which the last may have fewer; without a number all outputs are
    /// one word.
    pub width: Option<u32>,
}
