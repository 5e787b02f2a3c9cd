//! Errors at 512 patterns at a time: each output is eight words side by side, the first output for bit 0 of a
//! number, and bit b of word j has the outputs at pattern 64 j + b.
ghost use Rattle.std.specs.Prelude.{◌≡◌, ◌↔◌, ◌+◌, ◌<◌, ◌≤◌, ℕ, length, slice_index, IsTrue};
ghost use Rattle.semantics.specs.Error.{bit_number, number_of, sign_flipped, distance, differing};
ghost use Rattle.semantics.specs.Error.{word_error, error_of};
ghost use Rattle.semantics.specs.declared.metric.Kind.TheVariants.{Rel, Sabs};
ghost use Rattle.lane_nets.specs.Words.{word_bit};
ghost use Rattle.lane_nets.specs.Lanes.{lane_at, lane_number, lane_so_far, HasReached, GoesOn};
ghost use Rattle.lane_nets.specs.Wide.{lane_words};

use crate::lanes::over_by_kind;
use crate::wide_numbers::{WideComparison, no_comparison};
use crate::wide_outputs::set_lane_words;
use crate::wide_relative::{RelativeRoom, has_room, relative_wide};
use crate::wide_words::{and_wide, equal_words, not_wide, or_wide, xor_wide};
use net_errors::words::{word_count, word_place};
use semantics::limits::MOST_OUTPUTS;
use semantics::metric::{Kind, Metric};
use std::simd::u64x8;

/// The word whose bits are all 1, or all 0.
#[inline(always)]
fn bit_word(one: bool) -> u64
    ensures { (b : ℕ) → b < 64 → word_bit result b ≡ one }
{
    if one { u64::MAX } else { 0 }
}

/// The comparison after one more bit of both numbers and of the constant that is added to the lower number.
/// It is `compare_sum` with a word of equal bits, written out: where the compiler does not inline it, handing
/// that word on costs time for each bit.
#[inline(always)]
fn compare_wide(low: u64x8, high: u64x8, one: bool, so_far: WideComparison) -> WideComparison
    ensures { (j b : ℕ) → j < 8 → b < 64
        → GoesOn (lane_number (slice_index low j) b) (lane_number (slice_index high j) b) (bit_number one)
        (lane_so_far (slice_index so_far.carry j) (slice_index so_far.above j) b)
        (lane_so_far (slice_index result.carry j) (slice_index result.above j) b) }
{
    let constant = equal_words(bit_word(one));
    let half = xor_wide(low, constant);
    let sum = xor_wide(half, so_far.carry);
    let apart = xor_wide(high, sum);
    let carry = or_wide(and_wide(low, constant), and_wide(half, so_far.carry));
    let more = and_wide(high, not_wide(sum));
    let above = or_wide(more, and_wide(so_far.above, not_wide(apart)));
    WideComparison { carry, above }
}

/// The lanes where the lower number plus `level` is less than the higher number.
fn above_wide(low: &[u64x8], high: &[u64x8], level: u128) -> u64x8
    requires { length low.now ≡ length high.now }
    ensures { (j b : ℕ) → j < 8 → b < 64
        → IsTrue (word_bit (slice_index result j) b)
        ↔ (number_of (lane_at (lane_words low.now j) b) + level
        < number_of (lane_at (lane_words high.now j) b)) }
{
    let mut rest = level;
    let mut so_far = no_comparison();
    for (i, wide) in low.iter().enumerate() {
        so_far = compare_wide(*wide, high[i], rest % 2 == 1, so_far);
        rest /= 2;
    }
    if rest == 0 {
        and_wide(so_far.above, not_wide(so_far.carry))
    } else {
        equal_words(0)
    }
}

/// The lanes where the numbers are further apart than the level.
fn apart_wide(exact: &[u64x8], approx: &[u64x8], level: u128) -> u64x8
    requires { length exact.now ≡ length approx.now }
    ensures { (j b : ℕ) → j < 8 → b < 64 → IsTrue (word_bit (slice_index result j) b)
        ↔ (level < distance (number_of (lane_at (lane_words exact.now j) b))
        (number_of (lane_at (lane_words approx.now j) b))) }
{
    or_wide(
        above_wide(exact, approx, level),
        above_wide(approx, exact, level),
    )
}

/// Sets `turned` to the wide words with the last one, that of the signs, turned over.
fn set_turned_wide(wides: &[u64x8], turned: &mut [u64x8])
    requires { length wides.now ≡ length turned.old }
    ensures { (j b : ℕ) → j < 8 → b < 64
        → lane_at (lane_words turned.new j) b ≡ sign_flipped (lane_at (lane_words wides.now j) b) }
{
    turned.copy_from_slice(wides);
    let count = turned.len();
    if count > 0 {
        turned[count - 1] = not_wide(turned[count - 1]);
    }
}

/// The lanes where the signed numbers are further apart than the level.
fn signed_apart_wide(exact: &[u64x8], approx: &[u64x8], level: u128) -> u64x8
    requires same { length exact.now ≡ length approx.now }
    requires few { length exact.now ≤ MOST_OUTPUTS }
    ensures { (j b : ℕ) → j < 8 → b < 64 → IsTrue (word_bit (slice_index result j) b)
        ↔ (level < word_error Sabs (lane_at (lane_words exact.now j) b)
        (lane_at (lane_words approx.now j) b)) }
{
    let mut exact_room = [u64x8::splat(0); MOST_OUTPUTS];
    let mut approx_room = [u64x8::splat(0); MOST_OUTPUTS];
    let right = &mut exact_room[..exact.len()];
    let outputs = &mut approx_room[..exact.len()];
    set_turned_wide(exact, right);
    set_turned_wide(approx, outputs);
    apart_wide(right, outputs, level)
}

/// The lanes of one of the eight words where the error of one word exceeds the level.
fn lane_over(kind: Kind, level: u128, exact: &[u64x8], approx: &[u64x8], j: usize) -> u64
    requires lane { j < 8 }
    requires same { length exact.now ≡ length approx.now }
    requires few { length exact.now ≤ MOST_OUTPUTS }
    ensures { (b : ℕ) → b < 64 → IsTrue (word_bit result b)
        ↔ (level < word_error kind (lane_at (lane_words exact.now j) b)
        (lane_at (lane_words approx.now j) b)) }
{
    let mut exact_room = [0; MOST_OUTPUTS];
    let mut approx_room = [0; MOST_OUTPUTS];
    let right = &mut exact_room[..exact.len()];
    let outputs = &mut approx_room[..exact.len()];
    set_lane_words(exact, j, right);
    set_lane_words(approx, j, outputs);
    over_by_kind(kind, level, right, outputs)
}

/// The lanes where the error of one word exceeds the level, found in one of the eight words after another.
fn over_by_lanes(kind: Kind, level: u128, exact: &[u64x8], approx: &[u64x8]) -> u64x8
    requires same { length exact.now ≡ length approx.now }
    requires few { length exact.now ≤ MOST_OUTPUTS }
    ensures { (j b : ℕ) → j < 8 → b < 64 → IsTrue (word_bit (slice_index result j) b)
        ↔ (level < word_error kind (lane_at (lane_words exact.now j) b)
        (lane_at (lane_words approx.now j) b)) }
{
    let mut words = [0; 8];
    for j in 0..8 {
        words[j] = lane_over(kind, level, exact, approx, j);
    }
    u64x8::from_array(words)
}

/// The most lanes of 512 with outputs that differ in which relative errors are computed one by one. Products
/// are made for all lanes, also where nothing differs. The number was not tuned: on an 8-bit multiplier
/// within 50,000 parts per million no difference was seen beside other work.
const FEW_DIFFERING: u32 = 64;

/// The lanes where outputs differ. No statement depends on it.
fn differing_wide(exact: &[u64x8], approx: &[u64x8]) -> u64x8
    requires { length exact.now ≡ length approx.now }
{
    let mut differs = equal_words(0);
    for (i, wide) in exact.iter().enumerate() {
        differs = or_wide(differs, xor_wide(*wide, approx[i]));
    }
    differs
}

/// Whether at most `FEW_DIFFERING` lanes are marked.
fn are_few(lanes: u64x8) -> bool {
    let words = lanes.to_array();
    let mut count = 0;
    for word in words.iter() {
        count = word.count_ones().saturating_add(count);
    }
    count <= FEW_DIFFERING
}

/// The lanes where the relative error exceeds the level: one by one where few outputs differ, and else in
/// this room where it is large enough.
fn relative_over(level: u128, exact: &[u64x8], approx: &[u64x8], room: &mut RelativeRoom) -> u64x8
    requires same { length exact.now ≡ length approx.now }
    requires few { length exact.now ≤ MOST_OUTPUTS }
    ensures { (j b : ℕ) → j < 8 → b < 64 → IsTrue (word_bit (slice_index result j) b)
        ↔ (level < word_error Rel (lane_at (lane_words exact.now j) b)
        (lane_at (lane_words approx.now j) b)) }
{
    if are_few(differing_wide(exact, approx)) {
        over_by_lanes(Kind::Rel, level, exact, approx)
    } else if has_room(room, exact.len(), level) {
        relative_wide(level as u32, exact, approx, room)
    } else {
        over_by_lanes(Kind::Rel, level, exact, approx)
    }
}

/// The lanes where the error of one word exceeds the level.
fn over_one_wide(
    kind: Kind,
    level: u128,
    exact: &[u64x8],
    approx: &[u64x8],
    room: &mut RelativeRoom,
) -> u64x8
    requires same { length exact.now ≡ length approx.now }
    requires few { length exact.now ≤ MOST_OUTPUTS }
    ensures { (j b : ℕ) → j < 8 → b < 64 → IsTrue (word_bit (slice_index result j) b)
        ↔ (level < word_error kind (lane_at (lane_words exact.now j) b)
        (lane_at (lane_words approx.now j) b)) }
{
    match kind {
        Kind::Abs => apart_wide(exact, approx, level),
        Kind::Sabs => signed_apart_wide(exact, approx, level),
        Kind::Rel => relative_over(level, exact, approx, room),
        Kind::Ham => over_by_lanes(kind, level, exact, approx),
    }
}

/// The lanes where the error exceeds the level: those where the error of some word does.
pub(crate) fn over_wide(
    metric: Metric,
    level: u128,
    exact: &[u64x8],
    approx: &[u64x8],
    room: &mut RelativeRoom,
) -> u64x8
    requires same { length exact.now ≡ length approx.now }
    requires few { length exact.now ≤ MOST_OUTPUTS }
    ensures { (j b : ℕ) → j < 8 → b < 64 → IsTrue (word_bit (slice_index result j) b)
        ↔ (level < error_of metric (lane_at (lane_words exact.now j) b)
        (lane_at (lane_words approx.now j) b)) }
{
    let outputs = exact.len() as u32;
    let mut over = equal_words(0);
    for word in 0..word_count(metric, outputs) {
        let (first, size) = word_place(metric, outputs, word);
        let (begin, end) = (first as usize, (first + size) as usize);
        let (right, wrong) = (&exact[begin..end], &approx[begin..end]);
        let here = over_one_wide(metric.kind, level, right, wrong, room);
        over = or_wide(over, here);
    }
    over
}
