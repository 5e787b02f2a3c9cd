//! Errors at 64 patterns at a time: each output is a row of 64 lanes in a machine word, the first output for
//! bit 0 of a number, and lane b has the outputs at pattern b.
ghost use Rattle.std.specs.Prelude.{◌≡◌, ◌↔◌, ◌+◌, ◌<◌, ◌≤◌, ℕ, false, length, IsTrue};
ghost use Rattle.semantics.specs.Error.{bit_number, number_of, sign_flipped, distance, differing};
ghost use Rattle.semantics.specs.Error.{word_error, error_of};
ghost use Rattle.semantics.specs.declared.metric.Kind.TheVariants.{Rel, Sabs};
ghost use Rattle.lane_nets.specs.Words.{word_bit};
ghost use Rattle.lane_nets.specs.Lanes.{lane_at, lane_number, lane_so_far, HasReached, GoesOn};

use crate::outputs::word_bit;
use net_errors::error::error;
use net_errors::words::{word_count, word_place};
use semantics::limits::MOST_OUTPUTS;
use semantics::metric::{Kind, Metric};

/// How the bits so far compare: the carry of the sum of the lower number and the constant, and where the
/// higher number is above that sum.
#[derive(Clone, Copy)]
struct Comparison {
    carry: u64,
    above: u64,
}

/// The comparison after one more bit of both numbers and of the constant that is added to the lower number.
fn compare_bit(low: u64, high: u64, one: bool, so_far: Comparison) -> Comparison
    ensures { (b : ℕ) → b < 64 → GoesOn (lane_number low b) (lane_number high b) (bit_number one)
        (lane_so_far so_far.carry so_far.above b) (lane_so_far result.carry result.above b) }
{
    let constant = if one { u64::MAX } else { 0 };
    let half = low ^ constant;
    let sum = half ^ so_far.carry;
    Comparison {
        carry: (low & constant) | (half & so_far.carry),
        above: (high & !sum) | (so_far.above & !(high ^ sum)),
    }
}

/// The lanes where the lower number plus `level` is less than the higher number.
fn above_word(low: &[u64], high: &[u64], level: u128) -> u64
    requires { length low.now ≡ length high.now }
    ensures { (b : ℕ) → b < 64
        → IsTrue (word_bit result b)
        ↔ (number_of (lane_at low.now b) + level < number_of (lane_at high.now b)) }
{
    let mut rest = level;
    let mut so_far = Comparison { carry: 0, above: 0 };
    for (i, bit) in low.iter().enumerate() {
        so_far = compare_bit(*bit, high[i], rest % 2 == 1, so_far);
        rest /= 2;
    }
    if rest == 0 {
        so_far.above & !so_far.carry
    } else {
        0
    }
}

/// The lanes where the numbers are further apart than the level.
fn apart_word(exact: &[u64], approx: &[u64], level: u128) -> u64
    requires { length exact.now ≡ length approx.now }
    ensures { (b : ℕ) → b < 64 → IsTrue (word_bit result b)
        ↔ (level < distance (number_of (lane_at exact.now b)) (number_of (lane_at approx.now b))) }
{
    above_word(exact, approx, level) | above_word(approx, exact, level)
}

/// Sets `turned` to the words with the last one, that of the signs, turned over.
fn set_turned(words: &[u64], turned: &mut [u64])
    requires { length words.now ≡ length turned.old }
    ensures { (b : ℕ) → b < 64 → lane_at turned.new b ≡ sign_flipped (lane_at words.now b) }
{
    turned.copy_from_slice(words);
    if let Some(last) = turned.last_mut() {
        *last = !*last;
    }
}

/// The lanes where the signed numbers are further apart than the level.
fn signed_apart_word(exact: &[u64], approx: &[u64], level: u128) -> u64
    requires same { length exact.now ≡ length approx.now }
    requires few { length exact.now ≤ MOST_OUTPUTS }
    ensures { (b : ℕ) → b < 64 → IsTrue (word_bit result b)
        ↔ (level < word_error Sabs (lane_at exact.now b) (lane_at approx.now b)) }
{
    let mut exact_room = [0; MOST_OUTPUTS];
    let mut approx_room = [0; MOST_OUTPUTS];
    let right = &mut exact_room[..exact.len()];
    let outputs = &mut approx_room[..exact.len()];
    set_turned(exact, right);
    set_turned(approx, outputs);
    apart_word(right, outputs, level)
}

/// The lanes where some outputs differ; in the other lanes all outputs agree.
fn unequal_word(exact: &[u64], approx: &[u64]) -> u64
    requires { length exact.now ≡ length approx.now }
    ensures { (b : ℕ) → b < 64 → word_bit result b ≡ false → lane_at exact.now b ≡ lane_at approx.now b }
{
    let mut unequal = 0;
    for (i, word) in exact.iter().enumerate() {
        unequal |= *word ^ approx[i];
    }
    unequal
}

/// Sets `bits` to the bits of the words at pattern b.
pub fn set_lane(words: &[u64], b: u32, bits: &mut [bool])
    requires pattern { b < 64 }
    requires room { length bits.old ≡ length words.now }
    ensures { bits.new ≡ lane_at words.now b }
{
    for (i, word) in words.iter().enumerate() {
        bits[i] = word_bit(*word, b);
    }
}

/// The error at pattern b.
pub(crate) fn lane_error(metric: Metric, exact: &[u64], approx: &[u64], b: u32) -> u128
    requires pattern { b < 64 }
    requires same { length exact.now ≡ length approx.now }
    requires few { length exact.now ≤ MOST_OUTPUTS }
    ensures { result ≡ error_of metric (lane_at exact.now b) (lane_at approx.now b) }
{
    let mut exact_room = [false; MOST_OUTPUTS];
    let mut approx_room = [false; MOST_OUTPUTS];
    let right = &mut exact_room[..exact.len()];
    let outputs = &mut approx_room[..exact.len()];
    set_lane(exact, b, right);
    set_lane(approx, b, outputs);
    error(metric, right, outputs)
}

/// Counts one more output: word j of `reached` tells where more than j outputs differ.
fn count_differing(reached: &mut [u64], differs: u64)
    ensures { (b n : ℕ) → b < 64 → HasReached reached.old b n
        → HasReached reached.new b (n + lane_number differs b) }
{
    let mut below = u64::MAX;
    for j in 0..reached.len() {
        let before = reached[j];
        reached[j] = before | (differs & below);
        below = before;
    }
}

/// The lanes where more outputs differ than the level.
fn differing_word(level: u128, exact: &[u64], approx: &[u64]) -> u64
    requires same { length exact.now ≡ length approx.now }
    requires few { length exact.now ≤ MOST_OUTPUTS }
    ensures { (b : ℕ) → b < 64
        → IsTrue (word_bit result b) ↔ (level < differing (lane_at exact.now b) (lane_at approx.now b)) }
{
    if level >= exact.len() as u128 {
        return 0;
    }
    let mut room = [0; MOST_OUTPUTS];
    let reached = &mut room[..level as usize + 1];
    reached.fill(0);
    for (i, word) in exact.iter().enumerate() {
        count_differing(reached, *word ^ approx[i]);
    }
    reached[level as usize]
}

/// The number of the outputs at pattern b.
fn lane_value(words: &[u64], b: u32) -> u64
    requires pattern { b < 64 }
    requires few { length words.now ≤ MOST_OUTPUTS }
    ensures { result ≡ number_of (lane_at words.now b) }
{
    let mut number: u64 = 0;
    for i in 0..words.len() {
        number = number * 2 + u64::from(word_bit(words[words.len() - 1 - i], b));
    }
    number
}

/// Whether the relative error at pattern b exceeds the level, by the law that a quotient rounded up exceeds a
/// number exactly where the dividend exceeds the product of the number and the divisor.
fn is_over_relative(level: u64, exact: &[u64], approx: &[u64], b: u32) -> bool
    requires pattern { b < 64 }
    requires same { length exact.now ≡ length approx.now }
    requires few { length exact.now ≤ MOST_OUTPUTS }
    ensures { IsTrue result ↔ (level < word_error Rel (lane_at exact.now b) (lane_at approx.now b)) }
{
    let whole = lane_value(exact, b);
    let apart = u128::from(whole.abs_diff(lane_value(approx, b))) * 1_000_000;
    let most = u128::from(level) * u128::from(whole.max(1));
    most < apart
}

/// The lanes where the relative error exceeds the level, found pattern by pattern where outputs differ.
fn relative_word(level: u64, exact: &[u64], approx: &[u64]) -> u64
    requires same { length exact.now ≡ length approx.now }
    requires few { length exact.now ≤ MOST_OUTPUTS }
    ensures { (b : ℕ) → b < 64
        → IsTrue (word_bit result b) ↔ (level < word_error Rel (lane_at exact.now b) (lane_at approx.now b)) }
{
    let unequal = unequal_word(exact, approx);
    let mut over = 0;
    for b in 0..64 {
        if word_bit(unequal, b) && is_over_relative(level, exact, approx, b) {
            over |= 1 << b;
        }
    }
    over
}

/// The lanes where the error of one word exceeds the level, found pattern by pattern where outputs differ.
fn single_errors(kind: Kind, level: u128, exact: &[u64], approx: &[u64]) -> u64
    requires same { length exact.now ≡ length approx.now }
    requires few { length exact.now ≤ MOST_OUTPUTS }
    ensures { (b : ℕ) → b < 64
        → IsTrue (word_bit result b)
        ↔ (level < word_error kind (lane_at exact.now b) (lane_at approx.now b)) }
{
    let whole = Metric { kind, width: None };
    let unequal = unequal_word(exact, approx);
    let mut over = 0;
    for b in 0..64 {
        if word_bit(unequal, b) && lane_error(whole, exact, approx, b) > level {
            over |= 1 << b;
        }
    }
    over
}

/// The lanes where the error of one word exceeds the level.
pub(crate) fn over_by_kind(kind: Kind, level: u128, exact: &[u64], approx: &[u64]) -> u64
    requires same { length exact.now ≡ length approx.now }
    requires few { length exact.now ≤ MOST_OUTPUTS }
    ensures { (b : ℕ) → b < 64
        → IsTrue (word_bit result b)
        ↔ (level < word_error kind (lane_at exact.now b) (lane_at approx.now b)) }
{
    match kind {
        Kind::Abs => apart_word(exact, approx, level),
        Kind::Sabs => signed_apart_word(exact, approx, level),
        Kind::Rel => match u64::try_from(level) {
            Ok(level) => relative_word(level, exact, approx),
            Err(_) => single_errors(kind, level, exact, approx),
        },
        Kind::Ham => differing_word(level, exact, approx),
    }
}

/// The lanes where the error exceeds the level: those where the error of some word does.
pub fn over_word(metric: Metric, level: u128, exact: &[u64], approx: &[u64]) -> u64
    requires same { length exact.now ≡ length approx.now }
    requires few { length exact.now ≤ MOST_OUTPUTS }
    ensures { (b : ℕ) → b < 64
        → IsTrue (word_bit result b)
        ↔ (level < error_of metric (lane_at exact.now b) (lane_at approx.now b)) }
{
    let outputs = exact.len() as u32;
    let mut over = 0;
    for word in 0..word_count(metric, outputs) {
        let (first, size) = word_place(metric, outputs, word);
        let (begin, end) = (first as usize, (first + size) as usize);
        over |= over_by_kind(metric.kind, level, &exact[begin..end], &approx[begin..end]);
    }
    over
}
