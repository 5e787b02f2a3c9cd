//! The rules of tidying, each as the change that it makes at a table.

/// A rule, with the place of the pin that it is about.
#[derive(Clone, Copy, Debug)]
pub(crate) enum Rule {
    /// The pin reads a table without pins.
    ConstantPin(usize),
    /// The pin has a dash in every row.
    DashedPin(usize),
    /// The pin has the signal of an earlier pin.
    RepeatedPin(usize),
    /// The table becomes a canonical constant.
    Constant,
    /// Each table that reads the table reads its pin instead.
    Bypass,
    /// The table goes.
    Removal,
}
