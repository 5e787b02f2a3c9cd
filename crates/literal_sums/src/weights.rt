//! Weights of unknown terms, solved for modulo 2^32 from what the terms count at each of many vectors.
//!
//! Source: Gaussian elimination, whose pivots are odd, so that each has an inverse.

use crate::samples::{Samples, VECTORS, WORDS, Words};
use aig_core::literal::Literal;
use std::alloc::{AllocError, Global};

/// The most terms whose weights are looked for.
const MOST_TERMS: usize = 10;

/// What each term counts at a vector, and last what they are to make together.
type Row = [u32; MOST_TERMS + 1];

/// A literal that counts once more, and one that counts once less, and at which vectors only one is true.
#[derive(Drop)]
pub struct Column {
    pub before: Literal,
    pub behind: Literal,
    more: Words,
    less: Words,
}

/// What is to be made at each vector, and at which vectors it may not be 0.
#[derive(Drop)]
pub struct Difference {
    values: Vec<u32>,
    somewhere: Words,
}

/// A row whose entry in one column is 1.
#[derive(Clone, Copy)]
struct Pivot {
    column: usize,
    row: Row,
}

/// Rows, each with nothing in the columns of the ones before it.
#[derive(Drop)]
struct Pivots {
    pivots: Vec<Pivot>,
}

impl Column {
    /// The column of two literals.
    pub fn new(samples: &Samples, before: Literal, behind: Literal) -> Column {
        let mut more = [0; WORDS];
        let mut less = [0; WORDS];
        for i in 0..WORDS {
            let first = samples.word(before, i);
            let second = samples.word(behind, i);
            more[i] = first & !second;
            less[i] = second & !first;
        }
        Column {
            before,
            behind,
            more,
            less,
        }
    }

    /// Whether both literals have equal values at all vectors.
    pub fn is_nothing(&self) -> bool {
        for i in 0..WORDS {
            if self.more[i] | self.less[i] != 0 {
                return false;
            }
        }
        true
    }

    /// What the two literals count at a vector.
    fn at(&self, vector: usize) -> u32 {
        let word = vector / 64;
        if word >= WORDS {
            return 0;
        }
        if (self.more[word] >> (vector % 64)) & 1 == 1 {
            1
        } else if (self.less[word] >> (vector % 64)) & 1 == 1 {
            u32::MAX
        } else {
            0
        }
    }

    /// Joins the vectors at which the column counts to these.
    fn join_to(&self, somewhere: &mut Words) {
        for i in 0..WORDS {
            somewhere[i] |= self.more[i] | self.less[i];
        }
    }
}

impl Difference {
    /// Nothing at all vectors.
    pub fn new(alloc: Global) -> Result<Difference, AllocError> {
        Ok(Difference {
            values: vec![in alloc; 0; VECTORS]?,
            somewhere: [0; WORDS],
        })
    }

    /// Counts a column too, by this weight.
    pub fn add(&mut self, column: &Column, weight: u32) {
        column.join_to(&mut self.somewhere);
        for vector in 0..self.values.len() {
            let counted = weight.wrapping_mul(column.at(vector));
            self.values[vector] = self.values[vector].wrapping_add(counted);
        }
    }

    /// What is to be made at a vector.
    fn at(&self, vector: usize) -> u32 {
        if vector < self.values.len() {
            self.values[vector]
        } else {
            0
        }
    }
}

/// The inverse of an odd number. Source: Newton's iteration, which doubles the places that are right.
fn inverse(odd: u32) -> u32 {
    let mut found = odd;
    for _ in 0..4 {
        found = found.wrapping_mul(2u32.wrapping_sub(odd.wrapping_mul(found)));
    }
    found
}

/// The row of a vector.
fn row_at(columns: &[Column], difference: &Difference, vector: usize) -> Row {
    let mut row = [0; MOST_TERMS + 1];
    for (i, column) in columns.iter().enumerate() {
        if i < MOST_TERMS {
            row[i] = column.at(vector);
        }
    }
    row[MOST_TERMS] = difference.at(vector);
    row
}

/// An entry of a row.
fn entry(row: &Row, i: usize) -> u32 {
    if i <= MOST_TERMS { row[i] } else { 0 }
}

/// A row less another one, so many times.
fn without(row: &Row, other: &Row, times: u32) -> Row {
    let mut rest = *row;
    for i in 0..MOST_TERMS + 1 {
        rest[i] = rest[i].wrapping_sub(times.wrapping_mul(other[i]));
    }
    rest
}

/// The first column in which a row is odd.
fn odd_column(row: &Row) -> Option<usize> {
    for i in 0..MOST_TERMS {
        if row[i] % 2 == 1 {
            return Some(i);
        }
    }
    None
}

/// Whether a row asks that nothing makes something.
fn is_impossible(row: &Row) -> bool {
    for i in 0..MOST_TERMS {
        if row[i] != 0 {
            return false;
        }
    }
    row[MOST_TERMS] != 0
}

/// What the terms count at a row's vector by these weights.
fn counted(row: &Row, weights: &Row) -> u32 {
    let mut sum = 0u32;
    for i in 0..MOST_TERMS {
        sum = sum.wrapping_add(row[i].wrapping_mul(weights[i]));
    }
    sum
}

impl Pivots {
    /// What is left of a row when the pivots were taken from it, so that it has nothing in their columns.
    fn rest(&self, row: &Row) -> Row {
        let mut rest = *row;
        for pivot in &self.pivots {
            let times = entry(&rest, pivot.column);
            if times != 0 {
                rest = without(&rest, &pivot.row, times);
            }
        }
        rest
    }

    /// Makes a pivot of what is left of a row, where that is odd in some column; and says whether the row may
    /// hold. It may not where nothing is to make something.
    fn take(&mut self, row: &Row) -> Result<bool, AllocError> {
        let rest = self.rest(row);
        let Some(column) = odd_column(&rest) else {
            return Ok(!is_impossible(&rest));
        };
        let scale = inverse(entry(&rest, column));
        let row = without(&rest, &rest, 1u32.wrapping_sub(scale));
        self.pivots.push(Pivot { column, row })?;
        Ok(true)
    }

    /// The weights, 0 for each term without a pivot.
    fn weights(&self) -> Row {
        let mut weights = [0; MOST_TERMS + 1];
        for pivot in self.pivots.iter().rev() {
            let weight = pivot.row[MOST_TERMS].wrapping_sub(counted(&pivot.row, &weights));
            if pivot.column < MOST_TERMS {
                weights[pivot.column] = weight;
            }
        }
        weights
    }
}

/// Whether the vectors of `few` are among those of `many`.
fn are_among(few: &Words, many: &Words) -> bool {
    for i in 0..WORDS {
        if few[i] & !many[i] != 0 {
            return false;
        }
    }
    true
}

/// Whether there is a difference only where some column counts too.
fn may_make(columns: &[Column], difference: &Difference) -> bool {
    let mut somewhere = [0; WORDS];
    for column in columns {
        column.join_to(&mut somewhere);
    }
    are_among(&difference.somewhere, &somewhere)
}

/// The pivots of the columns; none where they are known not to make the difference.
fn pivots_of(
    alloc: Global,
    columns: &[Column],
    difference: &Difference,
) -> Result<Option<Pivots>, AllocError> {
    let mut found = Pivots {
        pivots: Vec::new(alloc),
    };
    for vector in 0..VECTORS {
        if found.pivots.len() == columns.len() {
            break;
        }
        if !found.take(&row_at(columns, difference, vector))? {
            return Ok(None);
        }
    }
    Ok(Some(found))
}

/// Whether the columns make the difference by these weights.
fn make(columns: &[Column], difference: &Difference, weights: &Row) -> bool {
    for vector in 0..VECTORS {
        let row = row_at(columns, difference, vector);
        if counted(&row, weights) != row[MOST_TERMS] {
            return false;
        }
    }
    true
}

/// Weights by which the columns make the difference at all vectors, if such are found.
pub fn solve(
    alloc: Global,
    columns: &[Column],
    difference: &Difference,
) -> Result<Option<Vec<u32>>, AllocError> {
    if columns.len() > MOST_TERMS || !may_make(columns, difference) {
        return Ok(None);
    }
    let Some(pivots) = pivots_of(alloc, columns, difference)? else {
        return Ok(None);
    };
    let weights = pivots.weights();
    if !make(columns, difference, &weights) {
        return Ok(None);
    }
    Ok(Some(Vec::from_slice(alloc, &weights[..columns.len()])?))
}
