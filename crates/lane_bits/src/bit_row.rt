//! A row of bits that grows by words.
ghost use Rattle.std.specs.Prelude.{◌≡◌, ◌+◌, ◌/◌, ◌<◌, ◌≤◌, ◌==◌, ◌||◌, ℕ, [], length, take, OnOk};
ghost use Rattle.lane_bits.specs.Rows.{row_bit};
ghost use Rattle.lane_bits.specs.Store.{IsGrownFrom};

use std::alloc::{AllocError, Global};
use std::marker::Model;

/// The words of a row; bit p is bit p % 64 of word p / 64.
#[derive(Drop)]
pub(crate) struct BitRow {
    words: Vec<u64>,
}

impl Model for BitRow {
    ghost use Rattle.std.specs.Prelude.{List, ℕ};

    ghost Value = { List ℕ };

    ghost view = { λ r. r.words.items };
}

impl BitRow {
    /// The row without words, which takes no memory.
    pub(crate) fn new(alloc: Global) -> BitRow
        ensures { result ≡ [] }
    {
        BitRow {
            words: Vec::new(alloc),
        }
    }

    /// The row of these words.
    pub(crate) fn of(words: Vec<u64>) -> BitRow
        ensures { result ≡ words.items }
    {
        BitRow { words }
    }

    /// Appends a word without bits where there are fewer than `words` words.
    pub(crate) fn reach(&mut self, words: usize) -> Result<(), AllocError>
        requires { words ≤ length self.old + 1 }
        ensures grown { IsGrownFrom self.old self.new }
        ensures ok { OnOk result (words ≤ length self.new) }
    {
        if self.words.len() < words {
            self.words.push(0)?;
        }
        Ok(())
    }

    /// Makes bit p 1.
    pub(crate) fn set(&mut self, p: u64)
        requires { p / 64 < length self.old }
        ensures same { length self.new ≡ length self.old }
        ensures bits { (q : ℕ) → row_bit self.new q ≡ ((q == p) || row_bit self.old q) }
    {
        self.words[(p / 64) as usize] |= 1 << (p % 64);
    }

    /// Bit p.
    pub(crate) fn bit(&self, p: u64) -> bool
        requires { p / 64 < length self.now }
        ensures { result ≡ row_bit self.now p }
    {
        self.words[(p / 64) as usize] >> (p % 64) & 1 == 1
    }

    /// The first words.
    pub(crate) fn first_words(&self, count: usize) -> &[u64]
        requires { count ≤ length self.now }
        ensures { result.now ≡ take count self.now }
    {
        &self.words[..count]
    }
}
