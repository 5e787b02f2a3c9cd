//! A text that only contracts and proofs read.
ghost use Rattle.std.specs.Prelude.{◌≡◌, ℕ, List, [], ◌++◌};
ghost use Rattle.std.specs.Borrow.{ftrue};

use std::marker::Model;

/// A clause reads the text as `bytes`.
#[derive(Drop)]
pub struct Text {
    pub ghost bytes: { List ℕ },
}

impl Model for Text {
    ghost also_owns = { λ _. ftrue };
}

impl Text {
    /// The empty text.
    pub fn new() -> Text
        ensures { result.bytes ≡ [] }
    {
        Text {}
    }

    /// The text with more bytes behind it.
    pub fn and(&self, more: &[u8]) -> Text
        ensures { result.bytes ≡ self.now.bytes ++ more.now }
    {
        Text {}
    }
}
