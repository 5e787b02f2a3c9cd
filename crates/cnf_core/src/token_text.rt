//! A text in pieces, made of its tokens.
ghost use Rattle.std.specs.Prelude.{◌≡◌, ◌++◌, length, take, drop, min};
ghost use Rattle.file_core.specs.Page.{Writes};

use crate::text_token::TextToken;
use crate::tokens::Tokens;
use file_core::append::append_all;
use file_core::fault::FileFault;
use file_core::files::Files;
use file_core::page::PAGE_BYTES;
use std::marker::Model;

/// Callers see what is left of the text. The text takes no memory but its own, and no token is made twice.
#[derive(Drop)]
pub struct TokenText<T: Tokens> {
    /// The token at hand.
    token: TextToken,
    tokens: T,
}

impl<T: Tokens> Model for TokenText<T> {
    ghost use Rattle.std.specs.Prelude.{List, ℕ, ◌++◌};

    ghost Value = { List ℕ };

    ghost view = { λ a. a.token ++ T.rest a.tokens };
}

impl<T: Tokens> TokenText<T> {
    /// The text of a token and of the tokens behind it.
    pub fn from_tokens(token: TextToken, tokens: T) -> TokenText<T>
        ensures { result ≡ token ++ T.rest tokens }
    {
        TokenText { token, tokens }
    }

    /// Puts the next bytes of the text at the front of `buf`, as many as fit or are left, and returns their
    /// number.
    pub fn fill(&mut self, buf: &mut [u8]) -> usize
        ensures count { result ≡ min (length buf.old) (length self.old) }
        ensures given { take result buf.new ≡ take result self.old }
        ensures rest { self.new ≡ drop result self.old }
        ensures kept { drop result buf.new ≡ drop result buf.old }
    {
        let mut filled = self.token.give(buf, 0);
        while filled < buf.len() {
            if !self.tokens.next(&mut self.token) {
                break;
            }
            filled += self.token.give(buf, filled);
        }
        filled
    }
}

/// Appends what is left of the text, page by page, to the file that is being written. After a fault a first
/// part of this was appended.
pub fn write_text<T: Tokens, F: Files>(
    text: &mut TokenText<T>,
    files: &mut F,
) -> Result<(), FileFault>
    ensures { Writes result (F.told files.old) (F.told files.new) text.old }
{
    let mut page = [0; PAGE_BYTES];
    loop {
        let count = text.fill(&mut page);
        if count == 0 {
            return Ok(());
        }
        append_all(files, &page[..count])?;
    }
}
