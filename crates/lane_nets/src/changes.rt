//! Which inputs change from one wide block of patterns to the next.
//!
//! Of a set of all vectors in a counting order, two inputs change on the average. They are found once for a
//! set, so that a walk reads only their rows.
ghost use Rattle.std.specs.Prelude.{◌≡◌, ◌+◌, ◌-◌, ◌*◌, ◌<◌, ◌≤◌, ℕ, List, false, length, slice_index, IfOk};
ghost use Rattle.lane_bits.specs.Rows.{word_count};
ghost use Rattle.lane_nets.specs.Changes.{AreChanges, AreKeptInputs, HasInputBlock, IsKept};
ghost use Rattle.lane_nets.specs.Changes.{IsSameInput};
ghost use Rattle.lane_bits.specs.Patterns.{PatternSet};

use crate::outputs::word_bit;
use crate::wide_blocks::wide_at;
use crate::wide_outputs::LEAST_GRAPH_PATTERNS;
use crate::wide_words::are_equal;
use lane_bits::patterns::Patterns;
use std::alloc::{AllocError, Global};

/// The most inputs of which it is told which change: a bit for each.
const MOST_MARKED: u32 = 64;

/// Whether input s is marked, or so late that it has no mark.
#[inline(always)]
pub(crate) fn is_marked(marks: u64, s: u32) -> bool
    ensures { result ≡ false → IsKept marks s }
{
    s >= MOST_MARKED || word_bit(marks, s)
}

/// Whether the words of a row in wide block q may differ from those in the block before it.
fn is_changed(row: &[u64], q: usize) -> bool
    requires later { 0 < q }
    requires within { 8 * q ≤ length row.now }
    ensures { result ≡ false → (j : ℕ) → j < 8
        → slice_index row.now (8 * q + j) ≡ slice_index row.now (8 * (q - 1) + j) }
{
    !are_equal(wide_at(row, 8 * (q - 1)), wide_at(row, 8 * q))
}

/// The marks of the inputs in wide block q: 0 where an input has the words of the block before.
fn block_marks(patterns: &Patterns, q: usize) -> u64
    requires later { 0 < q }
    requires within { 8 * q ≤ word_count (length patterns.now.vectors) }
    requires few { patterns.now.inputs ≤ 64 }
    ensures { (i : ℕ) → i < patterns.now.inputs → IsKept result i → IsSameInput patterns.now.vectors q i }
{
    let mut marks = 0;
    for s in 0..patterns.inputs() {
        if is_changed(patterns.row(s), q) {
            marks |= 1 << s;
        }
    }
    marks
}

/// For each wide block the marks of the inputs that may differ from the block before; of block 0 all are
/// marked. Without marks where the patterns are too few for a graph, or the inputs too many.
pub(crate) fn changes(alloc: Global, patterns: &Patterns) -> Result<Vec<u64>, AllocError>
    ensures { IfOk result (λ marks. AreChanges patterns.now marks.items) }
{
    let mut marks = Vec::new(alloc);
    if patterns.inputs() > MOST_MARKED || patterns.count() < LEAST_GRAPH_PATTERNS {
        return Ok(marks);
    }
    marks.push(u64::MAX)?;
    for q in 1..patterns.count().div_ceil(512) {
        marks.push(block_marks(patterns, q as usize))?;
    }
    Ok(marks)
}

/// The marks of the inputs in wide block q, where the values that are held are those of the block before
/// `next`, or of none where it is 0: all are marked unless `next` is q.
pub(crate) fn marks_at(changes: &[u64], next: usize, q: usize) -> u64
    ensures { (s : PatternSet) (wides : List (List ℕ)) → AreChanges s changes.now
        → (0 < next → HasInputBlock s (next - 1) wides) → AreKeptInputs s q result wides }
{
    if q > 0 && q == next && q < changes.len() {
        changes[q]
    } else {
        u64::MAX
    }
}

/// A wide block of patterns, and the marks of the inputs whose words may differ from those that are held.
#[derive(Clone, Copy)]
pub(crate) struct NextBlock<'a> {
    pub(crate) patterns: &'a Patterns,
    pub(crate) q: usize,
    pub(crate) marks: u64,
}
