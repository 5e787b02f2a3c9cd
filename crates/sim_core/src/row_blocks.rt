//! Rows that stand one behind another, changed one at a time. Nothing here takes memory.
ghost use Rattle.std.specs.Prelude.{◌≡◌, ◌+◌, ◌*◌, ◌/◌, ◌%◌, ◌==◌, ◌<◌, ◌≤◌, ℕ, length, false, ◌&&◌};
ghost use Rattle.lane_bits.specs.Rows.{row_bit, turned, word_count};
ghost use Rattle.sim_core.specs.Parts.{bit_from, StaysBefore};

use aig_core::literal::{Literal, is_negative, node_of};
use lane_bits::kernels::{and_rows, clear_past};

/// A row that is read: its first word, and whether its bits are turned over.
#[derive(Clone, Copy)]
pub(crate) struct Side {
    pub(crate) start: usize,
    pub(crate) flip: bool,
}

/// The row of a literal's node among rows of `words` words, and the literal's sign.
pub(crate) fn side_of(rows: &[u64], words: usize, literal: Literal) -> Side
    requires { literal / 2 * words + words ≤ length rows.now }
    ensures start { result.start ≡ literal / 2 * words }
    ensures flip { result.flip ≡ (literal % 2 == 1) }
    ensures within { result.start + words ≤ length rows.now }
{
    // The rows bound the product below.
    prove!(words <= rows.len());
    Side {
        start: node_of(literal) as usize * words,
        flip: is_negative(literal),
    }
}

/// Replaces the row that starts at word `start` by `row`.
pub(crate) fn set_row(rows: &mut [u64], start: usize, row: &[u64])
    requires { start + length row.now ≤ length rows.old }
    ensures bits { (p : ℕ) → p < 64 * length row.now → bit_from rows.new start p ≡ row_bit row.now p }
    ensures before { StaysBefore start rows.old rows.new }
{
    let (_before, rest) = rows.split_at_mut(start);
    rest[..row.len()].copy_from_slice(row);
}

/// Replaces the row that starts at a word by the conjunction of two rows before it, with the bits past the
/// first `count` 0.
pub(crate) fn set_conjunction(
    rows: &mut [u64],
    start: usize,
    words: usize,
    count: u64,
    left: Side,
    right: Side,
)
    requires words { words ≡ word_count count }
    requires left { left.start + words ≤ start }
    requires right { right.start + words ≤ start }
    requires within { start + words ≤ length rows.old }
    ensures bits { (p : ℕ) → p < count → bit_from rows.new start p
        ≡ (turned left.flip (bit_from rows.old left.start p)
        && turned right.flip (bit_from rows.old right.start p)) }
    ensures clear { (p : ℕ) → count ≤ p → p < 64 * words → bit_from rows.new start p ≡ false }
    ensures before { StaysBefore start rows.old rows.new }
{
    let (before, rest) = rows.split_at_mut(start);
    let row = &mut rest[..words];
    let a = &before[left.start..left.start + words];
    let b = &before[right.start..right.start + words];
    and_rows(row, a, left.flip, b, right.flip);
    clear_past(row, count);
}
