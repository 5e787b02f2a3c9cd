//! Sets of input vectors, held as one row of bits for each input.
ghost use Rattle.std.specs.Prelude.{◌≡◌, ◌⊎◌, ◌+◌, ◌/◌, ◌<◌, ◌≤◌, ℕ, [], ◌∷◌, ◌++◌, length, replicate};
ghost use Rattle.std.specs.Prelude.{slice_index_or, All, IfOk, OnOk, OnErr};
ghost use Rattle.semantics.specs.Vectors.{all_vectors};
ghost use Rattle.lane_bits.specs.Rows.{word_count};
ghost use Rattle.lane_bits.specs.InputOrder.{HasEveryVector};
ghost use Rattle.lane_bits.specs.Patterns.{IsPatternSet, IsRowOf, vector_at};
ghost use Rattle.lane_bits.specs.Store.{AreGrownFrom, AreReadied, AreSetAt, row_at};

use crate::bit_row::BitRow;
use crate::counting_rows::{counting_rows, placed_rows};
use crate::input_order::InputOrder;
use crate::kernels::word_count;
use semantics::limits::MOST_INPUTS;
use std::alloc::{AllocError, Global};
use std::marker::Model;

/// The most inputs whose vectors are all held: with 24 inputs a row takes two megabytes, and all rows 48.
pub const MOST_COUNTED_INPUTS: u32 = 24;

/// A list of vectors, each of one bit for each input.
#[derive(Drop)]
pub struct Patterns {
    inputs: u32,
    count: u64,
    rows: Vec<BitRow>,
}

impl Model for Patterns {
    ghost use Rattle.lane_bits.specs.Patterns.{PatternSet, vectors_in};
    ghost use Rattle.lane_bits.specs.Store.{AreRowsOf};

    ghost Value = { PatternSet };

    ghost view = { λ s. record { inputs = s.inputs; vectors = vectors_in s.rows.items s.count } };

    ghost invariant = { λ s. AreRowsOf s.inputs s.count s.rows.items };
}

/// `inputs` rows without bits.
fn empty_rows(alloc: Global, inputs: u32) -> Result<Vec<BitRow>, AllocError>
    ensures { IfOk result (λ rows. rows.items ≡ replicate inputs []) }
{
    let mut rows = Vec::new(alloc);
    for _i in 0..inputs {
        rows.push(BitRow::new(alloc))?;
    }
    Ok(rows)
}

/// Makes room for `words` words in each row.
fn reach_words(rows: &mut [BitRow], words: usize) -> Result<(), AllocError>
    requires { All (λ row. words ≤ length row + 1) rows.old }
    ensures grown { AreGrownFrom rows.old rows.new }
    ensures ok { OnOk result (All (λ row. words ≤ length row) rows.new) }
{
    for row in rows.iter_mut() {
        row.reach(words)?;
    }
    Ok(())
}

/// Makes a row for each input where there is none yet, and room for `words` words in each.
fn ready_rows(rows: &mut Vec<BitRow>, inputs: u32, words: usize) -> Result<(), AllocError>
    requires count { (length rows.old.items ≡ inputs) ⊎ (rows.old.items ≡ []) }
    requires room { (i : ℕ) → i < inputs → words ≤ length (row_at rows.old.items i) + 1 }
    ensures readied { AreReadied inputs rows.old.items rows.new.items }
    ensures count { OnOk result (length rows.new.items ≡ inputs) }
    ensures room { OnOk result (All (λ row. words ≤ length row) rows.new.items) }
{
    if rows.is_empty() {
        *rows = empty_rows(*rows.allocator(), inputs)?;
    }
    reach_words(rows, words)
}

/// Makes bit p of each row 1 where the vector's bit for that input is 1.
fn set_bits(rows: &mut [BitRow], p: u64, x: &[bool])
    requires width { length x.now ≡ length rows.old }
    requires room { All (λ row. p / 64 < length row) rows.old }
    ensures { AreSetAt p x.now rows.old rows.new }
{
    for (i, row) in rows.iter_mut().enumerate() {
        if x[i] {
            row.set(p);
        }
    }
}

/// The bits at position p of the rows.
fn get_bits(rows: &[BitRow], p: u64, x: &mut [bool])
    requires width { length x.old ≡ length rows.now }
    requires room { All (λ row. p / 64 < length row) rows.now }
    ensures { x.new ≡ vector_at rows.now p }
{
    for (i, row) in rows.iter().enumerate() {
        x[i] = row.bit(p);
    }
}

impl Patterns {
    /// The set without vectors, which takes no memory.
    pub fn new(alloc: Global, inputs: u32) -> Patterns
        requires { inputs ≤ MOST_INPUTS }
        ensures { result ≡ record { inputs = inputs; vectors = [] } }
    {
        Patterns {
            inputs,
            count: 0,
            rows: Vec::new(alloc),
        }
    }

    /// All vectors in counting order, made row by row.
    pub fn exhaustive(alloc: Global, inputs: u32) -> Result<Patterns, AllocError>
        requires { inputs ≤ MOST_COUNTED_INPUTS }
        ensures { IfOk result (λ s. s ≡ record { inputs = inputs; vectors = all_vectors inputs }) }
    {
        let count = 1 << inputs;
        Ok(Patterns {
            inputs,
            count,
            rows: counting_rows(alloc, inputs, count)?,
        })
    }

    /// All vectors in the counting order in which the inputs have these places, made row by row.
    pub fn every(alloc: Global, order: &InputOrder) -> Result<Patterns, AllocError>
        requires { length order.now ≤ MOST_COUNTED_INPUTS }
        ensures inputs { IfOk result (λ s. s.inputs ≡ length order.now) }
        ensures every { IfOk result HasEveryVector }
    {
        let inputs = order.inputs() as u32;
        let vectors = 1 << inputs;
        Ok(Patterns {
            inputs,
            count: vectors,
            rows: placed_rows(alloc, order, vectors)?,
        })
    }

    /// How many bits a vector has.
    pub fn inputs(&self) -> u32
        ensures value { result ≡ self.now.inputs }
        ensures formed { IsPatternSet self.now }
    {
        self.inputs
    }

    /// How many vectors there are.
    pub fn count(&self) -> u64
        ensures value { result ≡ length self.now.vectors }
        ensures formed { IsPatternSet self.now }
    {
        self.count
    }

    /// Adds a vector at the end.
    pub fn push(&mut self, x: &[bool]) -> Result<(), AllocError>
        requires { length x.now ≡ self.old.inputs }
        ensures ok { OnOk result (self.new ≡ record self.old { vectors = self.old.vectors ++ x.now ∷ [] }) }
        ensures err { OnErr result (self.new ≡ self.old) }
    {
        let count = self.count.checked_add(1).ok_or(AllocError)?;
        ready_rows(&mut self.rows, self.inputs, word_count(count) as usize)?;
        set_bits(&mut self.rows, self.count, x);
        self.count = count;
        Ok(())
    }

    /// Puts vector i, from 0, into `x`.
    pub fn get(&self, i: u64, x: &mut [bool])
        requires within { i < length self.now.vectors }
        requires width { length x.old ≡ self.now.inputs }
        ensures { x.new ≡ slice_index_or self.now.vectors i [] }
    {
        get_bits(&self.rows, i, x);
    }

    /// The row of an input: bit p is its bit in vector p, and the bits past the last vector are 0.
    pub fn row(&self, input: u32) -> &[u64]
        requires { input < self.now.inputs }
        ensures { IsRowOf self.now.vectors input result.now }
    {
        match self.rows.get(input as usize) {
            Some(row) => row.first_words(word_count(self.count) as usize),
            None => &[],
        }
    }
}
