//! Whether the error stays within a level, where nobody asks for a log.
use crate::query::Spent;
use net_core::items::Bits;

/// Whether the error exceeds a level.
#[derive(Drop)]
pub enum Margin {
    /// The error exceeds the level at this input vector.
    Over(Bits),
    /// The error exceeds the level at no input vector.
    Within,
    /// The allowed conflicts were spent without an answer.
    Spent(Spent),
}
