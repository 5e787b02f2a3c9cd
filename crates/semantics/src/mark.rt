//! What a row of a table asks of a pin. Source: BLIF's cover characters `0`, `1` and `-`.

/// One cover character. Definitions and code share this one type.
#[derive(Clone, Copy, Debug, Default, PartialEq, Eq)]
pub enum Mark {
    #[default]
    Zero,
    One,
    Dash,
}
