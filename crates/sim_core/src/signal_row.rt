//! The row of a signal: one bit for each pattern.
ghost use Rattle.std.specs.Prelude.{◌≡◌, ◌*◌, ◌<◌, ◌≤◌, ◌&&◌, ◌||◌, ℕ, false, length, IfOk};
ghost use Rattle.lane_bits.specs.Rows.{row_bit, turned, word_count};

use lane_bits::kernels::{and_rows, clear_past, keep_rows, or_rows};
use std::alloc::{AllocError, Global};
use std::marker::Model;

/// The words of a row, whose number does not change.
#[derive(Drop)]
pub(crate) struct SignalRow {
    words: Vec<u64>,
}

impl Model for SignalRow {
    ghost use Rattle.std.specs.Prelude.{List, ℕ};

    ghost Value = { List ℕ };

    ghost view = { λ r. r.words.items };
}

/// Makes all bits this one.
fn fill_words(words: &mut [u64], bit: bool)
    ensures { (p : ℕ) → p < 64 * length words.old → row_bit words.new p ≡ bit }
{
    let word = if bit { u64::MAX } else { 0 };
    words.fill(word);
}

impl SignalRow {
    /// A row of `words` words without bits.
    pub(crate) fn new(alloc: Global, words: usize) -> Result<SignalRow, AllocError>
        ensures { IfOk result (λ row. length row ≡ words) }
    {
        Ok(SignalRow {
            words: vec![in alloc; 0; words]?,
        })
    }

    pub(crate) fn as_slice(&self) -> &[u64]
        ensures { result.now ≡ self.now }
    {
        self.words.as_slice()
    }

    /// Makes all bits this one.
    pub(crate) fn fill(&mut self, bit: bool)
        ensures same { length self.new ≡ length self.old }
        ensures bits { (p : ℕ) → p < 64 * length self.old → row_bit self.new p ≡ bit }
    {
        fill_words(self.words.as_mut_slice(), bit);
    }

    /// Keeps the bits that are 1 in another row, or with `flip` those that are 0 there.
    pub(crate) fn keep(&mut self, other: &[u64], flip: bool)
        requires { length other.now ≡ length self.old }
        ensures same { length self.new ≡ length self.old }
        ensures bits { (p : ℕ) → p < 64 * length self.old
            → row_bit self.new p ≡ (row_bit self.old p && turned flip (row_bit other.now p)) }
    {
        keep_rows(self.words.as_mut_slice(), other, flip);
    }

    /// Makes those bits 1 that are 1 in another row.
    pub(crate) fn join(&mut self, other: &[u64])
        requires { length other.now ≡ length self.old }
        ensures same { length self.new ≡ length self.old }
        ensures bits { (p : ℕ) → row_bit self.new p ≡ (row_bit self.old p || row_bit other.now p) }
    {
        or_rows(self.words.as_mut_slice(), other);
    }

    /// Becomes equal to another row.
    pub(crate) fn copy(&mut self, other: &[u64])
        requires { length other.now ≡ length self.old }
        ensures { self.new ≡ other.now }
    {
        self.words.as_mut_slice().copy_from_slice(other);
    }

    /// Gets the first `count` bits of another row, or with `flip` their opposites; the bits past them become
    /// 0.
    pub(crate) fn set(&mut self, other: &[u64], flip: bool, count: u64)
        requires other { length other.now ≡ length self.old }
        requires words { length self.old ≡ word_count count }
        ensures same { length self.new ≡ length self.old }
        ensures bits { (p : ℕ) → p < count → row_bit self.new p ≡ turned flip (row_bit other.now p) }
        ensures clear { (p : ℕ) → count ≤ p → row_bit self.new p ≡ false }
    {
        let words = self.words.as_mut_slice();
        and_rows(words, other, flip, other, flip);
        clear_past(words, count);
    }
}
