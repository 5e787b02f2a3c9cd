//! A text that is given token by token.
ghost use Rattle.std.specs.Prelude.{◌≡◌, ◌<◌, [], ◌++◌, length, MatchBool};
ghost use Rattle.semantics.specs.Texts.{Bytes};

use crate::text_token::TextToken;

/// The tokens of a text that are left.
pub trait Tokens: Drop {
    /// The text of these tokens, one behind another.
    ghost rest: { Self → Bytes };

    /// Puts the next token, which has at least one byte, into `token`. At the end of the text there is none.
    fn next(&mut self, token: &mut TextToken) -> bool
        ensures { MatchBool result
            ((rest self.old ≡ token.new ++ rest self.new) × (0 < length token.new))
            ((rest self.old ≡ []) × (rest self.new ≡ []) × (token.new ≡ token.old)) };
}
