//! The bytes of a token, as far as they were read.
ghost use Rattle.std.specs.Prelude.{◌≡◌, ◌+◌, ◌*◌, ◌<◌, IsTrue, IfSome};
ghost use Rattle.proof_semantics.specs.LratTokens.{is_blank, is_log_byte, number_word};
ghost use Rattle.cnf_core.specs.LratScanning.{whole, number_with, held_with, ended_word};
ghost use Rattle.cnf_core.specs.FrontDigits.{IsNumberSoFar};

use proof_semantics::lrat_word::LratWord;

/// The token at hand, by its bytes so far.
#[derive(Clone, Copy, Drop)]
pub enum HeldWord {
    /// No token has begun.
    Empty,
    Minus,
    Letter,
    Number { negative: bool, size: u64 },
    Malformed,
}

/// A number as far as its digits are known.
#[derive(Clone, Copy, Drop)]
pub struct NumberSoFar {
    pub negative: bool,
    pub size: u64,
}

/// Whether the byte stands between tokens.
#[tactic(auto, unfolding(proof_semantics::specs::LratTokens::is_blank))]
#[inline(always)]
pub fn is_blank(byte: u8) -> bool
    ensures { result ≡ is_blank byte }
{
    byte == b' ' || byte == b'\t' || byte == b'\r' || byte == b'\n'
}

/// Whether the byte may stand in a log at all.
#[tactic(auto, unfolding(proof_semantics::specs::LratTokens::is_log_byte))]
pub fn is_log_byte(byte: u8) -> bool
    ensures { result ≡ is_log_byte byte }
{
    is_blank(byte) || byte.is_ascii_digit() || byte == b'-' || byte == b'd'
}

/// A number with one more digit, as long as it is below 2^63.
fn with_digit(negative: bool, size: u64, digit: u8) -> HeldWord
    requires { digit < 10 }
    ensures { result ≡ whole (number_word negative (10 * size + digit)) }
{
    let size = 10 * size as u128 + digit as u128;
    if size < 1 << 63 {
        HeldWord::Number {
            negative,
            size: size as u64,
        }
    } else {
        HeldWord::Malformed
    }
}

/// A number with one more byte.
fn number_with(negative: bool, size: u64, byte: u8) -> HeldWord
    ensures { result ≡ number_with negative size byte }
{
    if byte.is_ascii_digit() {
        with_digit(negative, size, byte - b'0')
    } else {
        HeldWord::Malformed
    }
}

impl HeldWord {
    /// The token with one more byte.
    pub fn with_byte(self, byte: u8) -> HeldWord
        ensures { result ≡ held_with self byte }
    {
        match self {
            HeldWord::Empty => match byte {
                b'd' => HeldWord::Letter,
                b'-' => HeldWord::Minus,
                _ => number_with(false, 0, byte),
            },
            HeldWord::Minus => number_with(true, 0, byte),
            HeldWord::Number { negative, size } => number_with(negative, size, byte),
            HeldWord::Letter | HeldWord::Malformed => HeldWord::Malformed,
        }
    }

    /// Whether no token has begun.
    #[inline(always)]
    pub fn is_empty(self) -> bool
        ensures { IsTrue result → self ≡ HeldWord.Empty }
    {
        match self {
            HeldWord::Empty => true,
            _ => false,
        }
    }

    /// The number to which a digit would be added; None where the token is no number.
    #[inline(always)]
    pub fn number(self) -> Option<NumberSoFar>
        ensures { IfSome result (λ n. IsNumberSoFar self n.negative n.size) }
    {
        let (negative, size) = match self {
            HeldWord::Empty => (false, 0),
            HeldWord::Minus => (true, 0),
            HeldWord::Number { negative, size } => (negative, size),
            HeldWord::Letter | HeldWord::Malformed => return None,
        };
        Some(NumberSoFar { negative, size })
    }

    /// What the token is where a blank ends it.
    #[inline(always)]
    pub fn ended(self) -> Option<LratWord>
        ensures { result ≡ ended_word self }
    {
        match self {
            HeldWord::Empty => None,
            HeldWord::Letter => Some(LratWord::Letter),
            HeldWord::Number { negative, size } => Some(LratWord::Number { negative, size }),
            HeldWord::Minus | HeldWord::Malformed => Some(LratWord::Malformed),
        }
    }
}
