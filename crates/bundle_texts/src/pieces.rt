//! Pieces at the front of a text: each reader returns what it found and what stands behind it.
ghost use Rattle.std.specs.Prelude.{◌≡◌, ◌≢◌, ◌≤◌, ◌++◌, ◌∷◌, ℕ, Bool, List, false, MatchOption};
ghost use Rattle.semantics.specs.Decimal.{is_digit};
ghost use Rattle.bundle_texts.specs.Pieces.{Lacks, bits_in, IsNumberBefore, IsVectorBefore};

use crate::bits::are_bit_digits;
use decimal_words::decimal::number_from_to;
use semantics::limits::LARGEST_ERROR;

/// What stands behind the word.
pub(crate) fn after<'a>(text: &'a [u8], word: &[u8]) -> Option<&'a [u8]>
    ensures { MatchOption result
        ((rest : List ℕ) → text.now ≢ word.now ++ rest)
        (λ rest. text.now ≡ word.now ++ rest.now) }
{
    text.strip_prefix(word)
}

/// What stands before the first `end`, and what stands behind it.
fn split_at(text: &[u8], end: u8) -> Option<(&[u8], &[u8])>
    ensures { MatchOption result
        (Lacks end text.now)
        (λ p. (text.now ≡ p.0.now ++ end ∷ p.1.now) × Lacks end p.0.now) }
{
    let at = text.iter().position(|b| *b == end)?;
    Some((&text[..at], &text[at + 1..]))
}

/// The decimal number up to `most` that ends before `end`.
pub(crate) fn number_before(text: &[u8], most: u128, end: u8) -> Option<(u128, &[u8])>
    requires few { most ≤ LARGEST_ERROR }
    requires no_digit { is_digit end ≡ false }
    ensures { MatchOption result
        ((n : ℕ) (rest : List ℕ) → ¬ IsNumberBefore most end text.now n rest)
        (λ p. IsNumberBefore most end text.now p.0 p.1.now) }
{
    let (word, rest) = split_at(text, end)?;
    let number = number_from_to(word, 0, most)?;
    Some((number, rest))
}

/// The digits of a vector of `width` bits that stands on a line.
pub(crate) fn vector_before(text: &[u8], width: usize) -> Option<(&[u8], &[u8])>
    ensures { MatchOption result
        ((x : List Bool) (rest : List ℕ) → ¬ IsVectorBefore width text.now x rest)
        (λ p. IsVectorBefore width text.now (bits_in p.0.now) p.1.now) }
{
    if text.len() <= width || text[width] != b'\n' || !are_bit_digits(&text[..width]) {
        return None;
    }
    Some((&text[..width], &text[width + 1..]))
}
