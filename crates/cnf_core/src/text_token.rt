//! A few bytes on the stack.
ghost use Rattle.std.specs.Prelude.{◌≡◌, ◌+◌, ◌-◌, ◌≤◌, ◌++◌, length, take, drop, min};
ghost use Rattle.file_core.specs.Pieces.{joined};

use itoa::{Buffer, Integer};
use std::marker::Model;

/// The most bytes of a token.
const TOKEN_BYTES: usize = 48;

/// The bytes of a token that were not given yet.
#[derive(Drop)]
pub struct TextToken {
    bytes: [u8; TOKEN_BYTES],
    start: usize,
    end: usize,
}

impl Model for TextToken {
    ghost use Rattle.std.specs.Prelude.{◌≤◌, List, ℕ, take, drop};

    ghost Value = { List ℕ };

    ghost view = { λ a. drop a.start (take a.end a.bytes) };

    ghost invariant = { λ a. (a.start ≤ a.end) × (a.end ≤ 48) };
}

/// Puts the piece behind the first `at` bytes.
fn put(bytes: &mut [u8], at: usize, piece: &[u8]) -> usize
    requires { at + length piece.now ≤ length bytes.old }
    ensures end { result ≡ at + length piece.now }
    ensures written { take result bytes.new ≡ take at bytes.old ++ piece.now }
{
    let end = at + piece.len();
    bytes[at..end].copy_from_slice(piece);
    end
}

impl TextToken {
    /// The pieces, one behind another.
    pub fn of(pieces: &[&[u8]]) -> TextToken
        requires { length (joined pieces.now) ≤ TOKEN_BYTES }
        ensures { result ≡ joined pieces.now }
    {
        let mut bytes = [0; TOKEN_BYTES];
        let mut end = 0;
        for piece in pieces {
            end = put(&mut bytes, end, piece);
        }
        TextToken {
            bytes,
            start: 0,
            end,
        }
    }

    /// Puts the piece in the place of what was left.
    pub fn set(&mut self, piece: &[u8])
        requires { length piece.now ≤ TOKEN_BYTES }
        ensures { self.new ≡ piece.now }
    {
        self.end = put(&mut self.bytes, 0, piece);
        self.start = 0;
    }

    /// Puts a number and what stands behind it in the place of what was left.
    #[inline]
    pub fn set_number<I: Integer>(&mut self, number: I, end: &[u8])
        requires { length end.now ≤ 8 }
        ensures { self.new ≡ I.text number ++ end.now }
    {
        let mut buffer = Buffer::new();
        let len = put(&mut self.bytes, 0, buffer.format(number).as_bytes());
        self.end = put(&mut self.bytes, len, end);
        self.start = 0;
    }

    /// Puts the next bytes behind the first `at` of the buffer, as many as fit or are left.
    #[inline]
    pub fn give(&mut self, buf: &mut [u8], at: usize) -> usize
        requires { at ≤ length buf.old }
        ensures count { result ≡ min (length self.old) (length buf.old - at) }
        ensures rest { self.new ≡ drop result self.old }
        ensures written { take (at + result) buf.new ≡ take at buf.old ++ take result self.old }
        ensures kept { drop (at + result) buf.new ≡ drop (at + result) buf.old }
    {
        let count = (self.end - self.start).min(buf.len() - at);
        let next = self.start + count;
        buf[at..at + count].copy_from_slice(&self.bytes[self.start..next]);
        self.start = next;
        count
    }
}
