//! Eight words of rows at a time. Nothing here takes memory.
ghost use Rattle.std.specs.Prelude.{◌≡◌, ◌+◌, ◌<◌, ◌≤◌, ℕ, length, slice_index, IsTrue, bit_and, bit_or};
ghost use Rattle.std.specs.Prelude.{bit_xor};
ghost use Rattle.lane_bits.specs.Changed.{AreChanged};

use std::simd::u64x8;

/// Sets the eight words of `dst` from word `at` on to the conjunctions of those of `a` and `b`, whose bits
/// are turned over where those of `flips_a` and `flips_b` are 1.
#[inline(always)]
pub(crate) fn and_eight(
    dst: &mut [u64],
    a: &[u64],
    flips_a: u64,
    b: &[u64],
    flips_b: u64,
    at: usize,
)
    requires dst { at + 8 ≤ length dst.old }
    requires a { at + 8 ≤ length a.now }
    requires b { at + 8 ≤ length b.now }
    ensures { AreChanged (λ k w. bit_and (bit_xor (slice_index a.now k) flips_a)
        (bit_xor (slice_index b.now k) flips_b))
        at (at + 8) dst.old dst.new }
{
    let left = u64x8::from_slice(&a[at..]) ^ u64x8::splat(flips_a);
    let right = u64x8::from_slice(&b[at..]) ^ u64x8::splat(flips_b);
    (left & right).copy_to_slice(&mut dst[at..]);
}

/// Keeps in the eight words of `dst` from word `at` on only the bits that are 1 in those of `a`, whose bits
/// are turned over where those of `flips_a` are 1.
#[inline(always)]
pub(crate) fn keep_eight(dst: &mut [u64], a: &[u64], flips_a: u64, at: usize)
    requires dst { at + 8 ≤ length dst.old }
    requires a { at + 8 ≤ length a.now }
    ensures { AreChanged (λ k w. bit_and w (bit_xor (slice_index a.now k) flips_a)) at (at + 8) dst.old
        dst.new }
{
    let right = u64x8::from_slice(&a[at..]) ^ u64x8::splat(flips_a);
    let words = u64x8::from_slice(&dst[at..]) & right;
    words.copy_to_slice(&mut dst[at..]);
}

/// Sets the eight words of `dst` from word `at` on to their disjunctions with those of `a`.
#[inline(always)]
pub(crate) fn or_eight(dst: &mut [u64], a: &[u64], at: usize)
    requires dst { at + 8 ≤ length dst.old }
    requires a { at + 8 ≤ length a.now }
    ensures { AreChanged (λ k w. bit_or w (slice_index a.now k)) at (at + 8) dst.old dst.new }
{
    let words = u64x8::from_slice(&dst[at..]) | u64x8::from_slice(&a[at..]);
    words.copy_to_slice(&mut dst[at..]);
}

/// Turns over the bits of the eight words of `dst` from word `at` on where those of `a` are 1.
#[inline(always)]
pub(crate) fn xor_eight(dst: &mut [u64], a: &[u64], at: usize)
    requires dst { at + 8 ≤ length dst.old }
    requires a { at + 8 ≤ length a.now }
    ensures { AreChanged (λ k w. bit_xor w (slice_index a.now k)) at (at + 8) dst.old dst.new }
{
    let words = u64x8::from_slice(&dst[at..]) ^ u64x8::from_slice(&a[at..]);
    words.copy_to_slice(&mut dst[at..]);
}

/// Whether no bit of the eight words from word `at` on is 1.
#[inline(always)]
pub(crate) fn are_clear(row: &[u64], at: usize) -> bool
    requires { at + 8 ≤ length row.now }
    ensures { IsTrue result → (k : ℕ) → at ≤ k → k < at + 8 → slice_index row.now k ≡ 0 }
{
    u64x8::from_slice(&row[at..]).reduce_or() == 0
}
