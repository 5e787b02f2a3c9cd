//! The values of a graph's nodes at 512 patterns at a time: eight words side by side, each with 64 patterns.
ghost use Rattle.std.specs.Prelude.{◌≡◌, ◌≢◌, ◌/◌, ◌%◌, ◌==◌, ◌<◌, ◌≤◌, ℕ, length, slice_index};
ghost use Rattle.aig_core.specs.Graph.{literal_value};
ghost use Rattle.lane_nets.specs.Words.{word_bit, values_at};
ghost use Rattle.lane_nets.specs.Wide.{lane_words};
ghost use Rattle.lane_nets.specs.Schedules.{IsDone, IsSameNode, ReadsBelow, ReadsOther, entry_at};

use crate::schedule::Entry;
use crate::wide_words::{and_wide, equal_words, xor_wide};
use aig_core::literal::Literal;
use std::simd::u64x8;

/// The word whose bits are 1 where a literal turns its node's value over.
#[inline(always)]
fn sign_word(literal: Literal) -> u64
    ensures { (b : ℕ) → b < 64 → word_bit result b ≡ (literal % 2 == 1) }
{
    if literal % 2 == 1 { u64::MAX } else { 0 }
}

/// The values of a literal.
#[inline(always)]
pub(crate) fn literal_wide(literal: Literal, wides: &[u64x8]) -> u64x8
    requires { literal / 2 < length wides.now }
    ensures { (j b : ℕ) → j < 8 → b < 64 → word_bit (slice_index result j) b
        ≡ literal_value (values_at (lane_words wides.now j) b) literal }
{
    let signs = equal_words(sign_word(literal));
    xor_wide(wides[(literal / 2) as usize], signs)
}

/// Computes the gates of the order from place `from` on, in their order. What the entries before it read is
/// not changed.
pub(crate) fn eval_order(order: &[Entry], from: usize, wides: &mut [u64x8])
    requires within { (p : ℕ) → p < length order.now → ReadsBelow (length wides.old) (entry_at order.now p) }
    requires nodes { (p : ℕ) → p < length order.now → (entry_at order.now p).node < length wides.old }
    requires once { (p q : ℕ) → p < q → q < length order.now
        → (entry_at order.now p).node ≢ (entry_at order.now q).node }
    requires ordered { (p q : ℕ) → p ≤ q → q < length order.now
        → ReadsOther (entry_at order.now q).node (entry_at order.now p) }
    requires before { (p : ℕ) → p < from → p < length order.now → IsDone wides.old (entry_at order.now p) }
    ensures done { (p : ℕ) → p < length order.now → IsDone wides.new (entry_at order.now p) }
    ensures others { (n : ℕ) → ((p : ℕ) → p < length order.now → (entry_at order.now p).node ≢ n)
        → IsSameNode wides.old wides.new n }
{
    for i in from..order.len() {
        let entry = order[i];
        let left = literal_wide(entry.left, wides);
        let right = literal_wide(entry.right, wides);
        wides[entry.node as usize] = and_wide(left, right);
    }
}
