//! Errors of outputs that are one word.
use semantics::metric::{Kind, Metric};

/// The absolute error.
pub const ABSOLUTE: Metric = Metric {
    kind: Kind::Abs,
    width: None,
};

/// The number of outputs that differ.
pub const HAMMING: Metric = Metric {
    kind: Kind::Ham,
    width: None,
};
