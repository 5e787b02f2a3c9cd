//! Relative errors at 512 patterns at a time, compared by products in place of a quotient.
ghost use Rattle.std.specs.Prelude.{◌≡◌, ◌↔◌, ◌+◌, ◌*◌, ◌^◌, ◌<◌, ◌≤◌, ℕ, max, length, slice_index, IsTrue};
ghost use Rattle.semantics.specs.Error.{word_error};
ghost use Rattle.semantics.specs.declared.metric.Kind.TheVariants.{Rel};
ghost use Rattle.lane_nets.specs.Words.{word_bit};
ghost use Rattle.lane_nets.specs.Lanes.{lane_at};
ghost use Rattle.lane_nets.specs.Wide.{lane_words};
ghost use Rattle.lane_nets.specs.Numbers.{wide_number};

use crate::wide_numbers::{set_product, sum_below_wide};
use crate::wide_words::{equal_words, not_wide, or_wide};
use semantics::metric::{Kind, Metric};
use std::alloc::{AllocError, Global};
use std::simd::u64x8;

/// The most bits of a level that is compared by products.
const MOST_LEVEL_BITS: usize = 32;

/// Room for the numbers by which relative errors are compared, made once for a walk.
#[derive(Drop)]
pub(crate) struct RelativeRoom {
    divisor: Vec<u64x8>,
    exact: Vec<u64x8>,
    approx: Vec<u64x8>,
    margin: Vec<u64x8>,
}

/// Room for words of up to `outputs` outputs where the error is the relative one. For other errors it is
/// empty, and takes no memory.
pub(crate) fn relative_room(
    alloc: Global,
    metric: Metric,
    outputs: u32,
) -> Result<RelativeRoom, AllocError> {
    let (numbers, products) = match metric.kind {
        Kind::Rel => (outputs as usize, outputs as usize + MOST_LEVEL_BITS),
        Kind::Abs | Kind::Sabs | Kind::Ham => (0, 0),
    };
    Ok(RelativeRoom {
        divisor: vec![in alloc; u64x8::splat(0); numbers]?,
        exact: vec![in alloc; u64x8::splat(0); products]?,
        approx: vec![in alloc; u64x8::splat(0); products]?,
        margin: vec![in alloc; u64x8::splat(0); products]?,
    })
}

/// Whether the errors of a word of so many outputs can be compared with a level in this room.
pub(crate) fn has_room(room: &RelativeRoom, outputs: usize, level: u128) -> bool
    ensures level { IsTrue result → level < 2 ^ MOST_LEVEL_BITS }
    ensures outputs { IsTrue result → 0 < outputs }
    ensures divisor { IsTrue result → outputs ≤ length room.now.divisor.items }
    ensures exact { IsTrue result → outputs + MOST_LEVEL_BITS ≤ length room.now.exact.items }
    ensures approx { IsTrue result → outputs + MOST_LEVEL_BITS ≤ length room.now.approx.items }
    ensures margin { IsTrue result → outputs + MOST_LEVEL_BITS ≤ length room.now.margin.items }
{
    if level > u128::from(u32::MAX) || outputs == 0 || outputs > room.divisor.len() {
        return false;
    }
    let least = room
        .exact
        .len()
        .min(room.approx.len())
        .min(room.margin.len());
    least >= MOST_LEVEL_BITS && outputs <= least - MOST_LEVEL_BITS
}

/// A level as a fraction: `parts` of `unit`.
#[derive(Clone, Copy)]
struct Fraction {
    parts: u32,
    unit: u32,
}

/// How often 2 and 5 divide a million.
const MOST_TIMES: u32 = 6;

/// The fraction without a common factor, as often as it divides both, up to `MOST_TIMES` times.
#[inline(always)]
fn reduced(factor: u32, fraction: Fraction) -> Fraction
    requires { 0 < factor }
    ensures { (x y : ℕ) → (result.parts * x < result.unit * y)
        ↔ (fraction.parts * x < fraction.unit * y) }
{
    let mut left = fraction;
    'times: for _ in 0..MOST_TIMES {
        if left.parts % factor == 0 && left.unit % factor == 0 {
            left = Fraction {
                parts: left.parts / factor,
                unit: left.unit / factor,
            };
        }
    }
    left
}

/// A level in parts per million, in lowest terms: a million is the sixth power of 2 times that of 5.
fn lowest_terms(level: u32) -> Fraction
    ensures { (x y : ℕ) → (result.parts * x < result.unit * y) ↔ (level * x < 1_000_000 * y) }
{
    let whole = Fraction {
        parts: level,
        unit: 1_000_000,
    };
    reduced(5, reduced(2, whole))
}

/// How many bits a number has.
fn bit_length(number: u32) -> usize
    ensures fits { number < 2 ^ result }
    ensures most { result ≤ MOST_LEVEL_BITS }
{
    (u32::BITS - number.leading_zeros()) as usize
}

/// The lanes where a number is not 0.
fn some_wide(number: &[u64x8]) -> u64x8
    ensures { (j b : ℕ) → j < 8 → b < 64
        → IsTrue (word_bit (slice_index result j) b) ↔ (0 < wide_number number.now j b) }
{
    let mut some = equal_words(0);
    for wide in number {
        some = or_wide(some, *wide);
    }
    some
}

/// Sets `divisor` to the numbers, with 1 in place of 0.
fn set_divisor(number: &[u64x8], divisor: &mut [u64x8])
    requires some { 0 < length number.now }
    requires room { length divisor.old ≡ length number.now }
    ensures { (j b : ℕ) → j < 8 → b < 64
        → wide_number divisor.new j b ≡ max 1 (wide_number number.now j b) }
{
    let none = not_wide(some_wide(number));
    divisor.copy_from_slice(number);
    divisor[0] = or_wide(divisor[0], none);
}

/// The lanes where the relative error exceeds the level: where a million times the distance exceeds the level
/// times the exact number, which counts as 1 where it is 0.
pub(crate) fn relative_wide(
    level: u32,
    exact: &[u64x8],
    approx: &[u64x8],
    room: &mut RelativeRoom,
) -> u64x8
    requires some { 0 < length exact.now }
    requires same { length exact.now ≡ length approx.now }
    requires divisor { length exact.now ≤ length room.old.divisor.items }
    requires exact { length exact.now + MOST_LEVEL_BITS ≤ length room.old.exact.items }
    requires approx { length exact.now + MOST_LEVEL_BITS ≤ length room.old.approx.items }
    requires margin { length exact.now + MOST_LEVEL_BITS ≤ length room.old.margin.items }
    ensures { (j b : ℕ) → j < 8 → b < 64 → IsTrue (word_bit (slice_index result j) b)
        ↔ (level < word_error Rel (lane_at (lane_words exact.now j) b)
        (lane_at (lane_words approx.now j) b)) }
{
    let terms = lowest_terms(level);
    let width = bit_length(terms.parts.max(terms.unit));
    let size = exact.len() + width;
    let divisor = &mut room.divisor[..exact.len()];
    let right = &mut room.exact[..size];
    let outputs = &mut room.approx[..size];
    let margin = &mut room.margin[..size];
    set_divisor(exact, divisor);
    set_product(exact, terms.unit, width, right);
    set_product(approx, terms.unit, width, outputs);
    set_product(divisor, terms.parts, width, margin);
    or_wide(
        sum_below_wide(right, margin, outputs),
        sum_below_wide(outputs, margin, right),
    )
}
