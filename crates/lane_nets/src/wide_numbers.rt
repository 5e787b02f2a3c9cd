//! Numbers at 512 patterns at a time: wide word i has bit i of a number for each pattern. Sums, products with
//! a constant, and the comparison of a sum with a number.
ghost use Rattle.std.specs.Prelude.{◌≡◌, ◌↔◌, ◌+◌, ◌*◌, ◌^◌, ◌<◌, ◌≤◌, ℕ, length, slice_index, IsTrue};
ghost use Rattle.semantics.specs.Error.{bit_number};
ghost use Rattle.lane_nets.specs.Words.{word_bit};
ghost use Rattle.lane_nets.specs.Lanes.{lane_number, lane_so_far, GoesOn};
ghost use Rattle.lane_nets.specs.Numbers.{wide_bit, wide_number, number_below, sum_of, carry_of};

use crate::wide_words::{and_wide, equal_words, not_wide, or_wide, xor_wide};
use std::simd::u64x8;

/// How the bits so far compare: the carry of the sum of two numbers, and where a third number is above that
/// sum.
#[derive(Clone, Copy)]
pub(crate) struct WideComparison {
    pub(crate) carry: u64x8,
    pub(crate) above: u64x8,
}

/// The comparison of no bits.
#[inline(always)]
pub(crate) fn no_comparison() -> WideComparison
    ensures carry { (j : ℕ) → j < 8 → slice_index result.carry j ≡ 0 }
    ensures above { (j : ℕ) → j < 8 → slice_index result.above j ≡ 0 }
{
    WideComparison {
        carry: equal_words(0),
        above: equal_words(0),
    }
}

/// The comparison after one more bit of the two numbers that are added and of the one that is compared with
/// their sum.
#[inline(always)]
pub(crate) fn compare_sum(
    first: u64x8,
    second: u64x8,
    high: u64x8,
    so_far: WideComparison,
) -> WideComparison
    ensures { (j b : ℕ) → j < 8 → b < 64
        → GoesOn (lane_number (slice_index first j) b) (lane_number (slice_index high j) b)
        (lane_number (slice_index second j) b)
        (lane_so_far (slice_index so_far.carry j) (slice_index so_far.above j) b)
        (lane_so_far (slice_index result.carry j) (slice_index result.above j) b) }
{
    let half = xor_wide(first, second);
    let sum = xor_wide(half, so_far.carry);
    let apart = xor_wide(high, sum);
    let carry = or_wide(and_wide(first, second), and_wide(half, so_far.carry));
    let more = and_wide(high, not_wide(sum));
    let above = or_wide(more, and_wide(so_far.above, not_wide(apart)));
    WideComparison { carry, above }
}

/// The lanes where the sum of two numbers is less than a third number.
pub(crate) fn sum_below_wide(first: &[u64x8], second: &[u64x8], high: &[u64x8]) -> u64x8
    requires first { length first.now ≡ length high.now }
    requires second { length second.now ≡ length high.now }
    ensures { (j b : ℕ) → j < 8 → b < 64 → IsTrue (word_bit (slice_index result j) b)
        ↔ (wide_number first.now j b + wide_number second.now j b < wide_number high.now j b) }
{
    let mut so_far = no_comparison();
    for (i, wide) in first.iter().enumerate() {
        so_far = compare_sum(*wide, second[i], high[i], so_far);
    }
    and_wide(so_far.above, not_wide(so_far.carry))
}

/// The sum of three bits.
#[derive(Clone, Copy)]
struct BitSum {
    sum: u64x8,
    carry: u64x8,
}

/// The sum of three bits in each lane.
#[inline(always)]
fn add_bits(first: u64x8, second: u64x8, carry: u64x8) -> BitSum
    ensures sum { (j b : ℕ) → j < 8 → b < 64 → word_bit (slice_index result.sum j) b
        ≡ sum_of (word_bit (slice_index first j) b) (word_bit (slice_index second j) b)
        (word_bit (slice_index carry j) b) }
    ensures carry { (j b : ℕ) → j < 8 → b < 64 → word_bit (slice_index result.carry j) b
        ≡ carry_of (word_bit (slice_index first j) b) (word_bit (slice_index second j) b)
        (word_bit (slice_index carry j) b) }
{
    let half = xor_wide(first, second);
    BitSum {
        sum: xor_wide(half, carry),
        carry: or_wide(and_wide(first, second), and_wide(half, carry)),
    }
}

/// Adds a number to `total`, with bit 0 at place `from`; the word behind is set to the carry.
fn add_shifted(number: &[u64x8], from: usize, total: &mut [u64x8])
    requires { from + length number.now < length total.old }
    ensures { (j b : ℕ) → j < 8 → b < 64
        → number_below (wide_bit total.new j b) (from + length number.now + 1)
        ≡ number_below (wide_bit total.old j b) (from + length number.now)
        + 2 ^ from * wide_number number.now j b }
{
    let mut carry = equal_words(0);
    for (i, wide) in number.iter().enumerate() {
        let here = add_bits(total[from + i], *wide, carry);
        total[from + i] = here.sum;
        carry = here.carry;
    }
    total[from + number.len()] = carry;
}

/// Sets the first words of `total` to 0.
fn clear(count: usize, total: &mut [u64x8])
    requires { count ≤ length total.old }
    ensures { (j b : ℕ) → j < 8 → b < 64 → number_below (wide_bit total.new j b) count ≡ 0 }
{
    for i in 0..count {
        total[i] = equal_words(0);
    }
}

/// Adds a number to `total` as [`add_shifted`] does where `one` holds, or nothing.
fn add_digit(number: &[u64x8], one: bool, from: usize, total: &mut [u64x8])
    requires { from + length number.now < length total.old }
    ensures { (j b : ℕ) → j < 8 → b < 64
        → number_below (wide_bit total.new j b) (from + length number.now + 1)
        ≡ number_below (wide_bit total.old j b) (from + length number.now)
        + 2 ^ from * (bit_number one * wide_number number.now j b) }
{
    if one {
        add_shifted(number, from, total);
    } else {
        total[from + number.len()] = equal_words(0);
    }
}

/// Sets `product` to the product of each lane's number with a constant of at most `width` bits.
pub(crate) fn set_product(number: &[u64x8], constant: u32, width: usize, product: &mut [u64x8])
    requires constant { constant < 2 ^ width }
    requires room { length product.old ≡ length number.now + width }
    ensures { (j b : ℕ) → j < 8 → b < 64
        → wide_number product.new j b ≡ constant * wide_number number.now j b }
{
    clear(number.len(), product);
    let mut rest = constant;
    for from in 0..width {
        add_digit(number, rest % 2 == 1, from, product);
        rest /= 2;
    }
}
