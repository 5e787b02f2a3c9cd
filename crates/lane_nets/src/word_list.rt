//! Words in memory of their own: the words of a block, one for each signal, or those of a row, one for each
//! 64 patterns.
ghost use Rattle.std.specs.Prelude.{◌≡◌, [], ◌∷◌, ◌++◌, length, take};
ghost use Rattle.std.specs.Prelude.{IfOk, OnOk, OnErr};

use std::alloc::{AllocError, Global};
use std::marker::Model;
use std::simd::u64x8;

/// A list of words.
#[derive(Drop)]
pub struct WordList {
    words: Vec<u64>,
}

impl Model for WordList {
    ghost use Rattle.std.specs.Prelude.{List, ℕ};

    ghost Value = { List ℕ };

    ghost view = { λ a. a.words.items };
}

impl WordList {
    /// The list without words, which takes no memory.
    pub fn new(alloc: Global) -> WordList
        ensures { result ≡ [] }
    {
        WordList {
            words: Vec::new(alloc),
        }
    }

    /// The list of these words. It takes no memory.
    pub fn of(words: Vec<u64>) -> WordList
        ensures { result ≡ words.items }
    {
        WordList { words }
    }

    /// The words.
    pub fn as_slice(&self) -> &[u64]
        ensures { result.now ≡ self.now }
    {
        self.words.as_slice()
    }

    /// How many words there are.
    pub fn len(&self) -> usize
        ensures { result ≡ length self.now }
    {
        self.words.len()
    }

    /// Adds a word at the end.
    pub fn push(&mut self, word: u64) -> Result<(), AllocError>
        ensures ok { OnOk result (self.new ≡ self.old ++ word ∷ []) }
        ensures err { OnErr result (self.new ≡ self.old) }
    {
        self.words.push(word)?;
        Ok(())
    }

    /// Keeps only the first `count` words.
    pub fn truncate(&mut self, count: usize)
        ensures { self.new ≡ take count self.old }
    {
        self.words.truncate(count);
    }
}

/// A list of wide words in memory of their own: the outputs of a net at 512 patterns.
#[derive(Drop)]
pub struct WideList {
    wides: Vec<u64x8>,
}

impl Model for WideList {
    ghost use Rattle.std.specs.Prelude.{List, ℕ};

    ghost Value = { List (List ℕ) };

    ghost view = { λ a. a.wides.items };
}

impl WideList {
    /// A copy of these wide words.
    pub fn from_slice(alloc: Global, wides: &[u64x8]) -> Result<WideList, AllocError>
        ensures { IfOk result (λ list. list ≡ wides.now) }
    {
        let mut copy = vec![in alloc; u64x8::splat(0); wides.len()]?;
        copy.copy_from_slice(wides);
        Ok(WideList { wides: copy })
    }

    /// The wide words.
    pub fn as_slice(&self) -> &[u64x8]
        ensures { result.now ≡ self.now }
    {
        self.wides.as_slice()
    }
}
