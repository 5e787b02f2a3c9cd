//! Why the text of a log is refused. Source: LRAT, as this tool reads it.

/// The refusal that is decided first in the order of the text. Places are those of bytes, from 0. Definitions
/// and code share this one type.
#[derive(Clone, Copy, Debug, Drop, PartialEq, Eq)]
pub enum LratRefusal {
    /// The byte at this place stands in no token.
    BadByte(u64),
    /// The token that begins at this place is no number and no letter, is too large, or has no place in the
    /// grammar.
    BadNumber(u64),
    /// The step with this id has a negative hint.
    Negative(u64),
    /// The text ends within an item.
    Cut,
    /// There is no memory for what was read; no definition gives this.
    OutOfMemory,
}
