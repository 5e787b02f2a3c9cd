//! The first of some input vectors whose error exceeds a level, and the one with the greatest error.
ghost use Rattle.std.specs.Prelude.{◌≡◌, ◌↔◌, ◌+◌, ◌*◌, ◌/◌, ◌%◌, ◌<◌, ◌≤◌, ◌^◌, ℕ, false, length};
ghost use Rattle.std.specs.Prelude.{IsTrue};
ghost use Rattle.semantics.specs.Error.{error_of, net_error, IsCandidate};
ghost use Rattle.lane_bits.specs.Rows.{row_bit};
ghost use Rattle.lane_nets.specs.Lanes.{lane_at};
ghost use Rattle.lane_nets.specs.Wide.{lane_words, AreWideOutputsOf};
ghost use Rattle.lane_nets.specs.Errors.{FindsFirstOver, IsFirstGreatest, IsGreatestSoFar};

use crate::lanes::lane_error;
use crate::outputs::word_bit;
use crate::wide_lanes::over_wide;
use crate::wide_outputs::{WideOutputs, set_lane_words};
use crate::wide_relative::RelativeRoom;
use crate::word_list::WideList;
use lane_bits::kernels::first_set;
use lane_bits::patterns::Patterns;
use net_errors::compared::Compared;
use semantics::limits::MOST_OUTPUTS;
use semantics::metric::Metric;
use std::simd::u64x8;

/// An error, and the first pattern that has it.
#[derive(Clone, Copy)]
pub struct Greatest {
    pub error: u128,
    pub at: u64,
}

/// The lanes where the error exceeds the level, in the eight words of a wide block.
fn block_over(
    nets: &Compared,
    metric: Metric,
    level: u128,
    exact: &[u64x8],
    wides: &[u64x8],
    room: &mut RelativeRoom,
) -> [u64; 8]
    requires candidate { IsCandidate nets.now.exact nets.now.approx }
    requires exact { length exact.now ≡ length nets.now.exact.outputs }
    requires wides { length wides.now ≡ length nets.now.approx.outputs }
    ensures length { length result ≡ 8 }
    ensures bits { (p : ℕ) → p < 512 → IsTrue (row_bit result p)
        ↔ (level < error_of metric (lane_at (lane_words exact.now (p / 64)) (p % 64))
        (lane_at (lane_words wides.now (p / 64)) (p % 64))) }
{
    over_wide(metric, level, exact, wides, room).to_array()
}

/// The first pattern whose error exceeds the level, where `outputs` are those of the exact net. The outputs
/// of the approximate net are computed into `wide`, 512 patterns at a time, up to that pattern.
pub(crate) fn first_over(
    nets: &Compared,
    metric: Metric,
    level: u128,
    patterns: &Patterns,
    outputs: &[WideList],
    wide: &mut WideOutputs,
    room: &mut RelativeRoom,
) -> Option<u64>
    requires candidate { IsCandidate nets.now.exact nets.now.approx }
    requires patterns { wide.old.patterns ≡ patterns.now }
    requires outputs { AreWideOutputsOf nets.now.exact patterns.now.vectors outputs.now }
    requires wide { wide.old.net ≡ nets.now.approx }
    ensures { FindsFirstOver (net_error metric nets.now.exact nets.now.approx) level patterns.now.vectors
        result }
{
    let count = patterns.count();
    for q in 0..outputs.len() {
        wide.reach(q);
        let exact = outputs[q].as_slice();
        let over = block_over(nets, metric, level, exact, wide.outputs(), room);
        let from = 512 * q as u64;
        if let Some(p) = first_set(&over, (count - from).min(512)) {
            return Some(from + p);
        }
    }
    None
}

/// The greater one of the greatest error so far and the error of a later pattern.
fn greater(so_far: Greatest, error: u128, at: u64) -> Greatest
    ensures { (f : ℕ → ℕ) → f at ≡ error → IsGreatestSoFar f at so_far.at so_far.error
        → IsGreatestSoFar f (at + 1) result.at result.error × (so_far.error ≤ result.error) }
{
    if error > so_far.error {
        Greatest { error, at }
    } else {
        so_far
    }
}

/// The error at pattern p of a wide block.
fn wide_error(nets: &Compared, metric: Metric, exact: &[u64x8], wides: &[u64x8], p: u32) -> u128
    requires pattern { p < 512 }
    requires candidate { IsCandidate nets.now.exact nets.now.approx }
    requires exact { length exact.now ≡ length nets.now.exact.outputs }
    requires wides { length wides.now ≡ length nets.now.approx.outputs }
    ensures { result ≡ error_of metric (lane_at (lane_words exact.now (p / 64)) (p % 64))
        (lane_at (lane_words wides.now (p / 64)) (p % 64)) }
{
    let mut exact_room = [0; MOST_OUTPUTS];
    let mut approx_room = [0; MOST_OUTPUTS];
    let right = &mut exact_room[..nets.exact().outputs() as usize];
    let outputs = &mut approx_room[..nets.approx().outputs() as usize];
    set_lane_words(exact, (p / 64) as usize, right);
    set_lane_words(wides, (p / 64) as usize, outputs);
    lane_error(metric, right, outputs, p % 64)
}

/// The first place below `count` whose bit is 1, or `count`.
fn first_place(row: &[u64], count: u32) -> u32
    requires { count ≤ 64 * length row.now }
    ensures within { result ≤ count }
    ensures clear { (p : ℕ) → p < result → row_bit row.now p ≡ false }
{
    match first_set(row, u64::from(count)) {
        Some(p) => p as u32,
        None => count,
    }
}

/// The greatest error up to the first `count` patterns of a wide block, which begins at pattern `from`. The
/// errors are computed one by one where some of them exceeds the greatest error before.
fn greatest_in_block(
    nets: &Compared,
    metric: Metric,
    exact: &[u64x8],
    wides: &[u64x8],
    from: u64,
    count: u32,
    so_far: Greatest,
    room: &mut RelativeRoom,
) -> Greatest
    requires candidate { IsCandidate nets.now.exact nets.now.approx }
    requires exact { length exact.now ≡ length nets.now.exact.outputs }
    requires wides { length wides.now ≡ length nets.now.approx.outputs }
    requires few { count ≤ 512 }
    requires room { from + count < 2 ^ 64 }
    ensures { (f : ℕ → ℕ) → ((p : ℕ) → p < 512 → f (from + p)
        ≡ error_of metric (lane_at (lane_words exact.now (p / 64)) (p % 64))
        (lane_at (lane_words wides.now (p / 64)) (p % 64)))
        → IsGreatestSoFar f from so_far.at so_far.error
        → IsGreatestSoFar f (from + count) result.at result.error }
{
    let over = block_over(nets, metric, so_far.error, exact, wides, room);
    let mut greatest = so_far;
    let first = first_place(&over, count);
    for p in first..count {
        if word_bit(over[(p / 64) as usize], p % 64) {
            let error = wide_error(nets, metric, exact, wides, p);
            greatest = greater(greatest, error, from + u64::from(p));
        }
    }
    greatest
}

/// The greatest error of the patterns, and the first pattern that has it, where `outputs` are those of the
/// exact net. The outputs of the approximate net are computed into `wide`, 512 patterns at a time.
pub(crate) fn greatest_error(
    nets: &Compared,
    metric: Metric,
    patterns: &Patterns,
    outputs: &[WideList],
    wide: &mut WideOutputs,
    room: &mut RelativeRoom,
) -> Greatest
    requires candidate { IsCandidate nets.now.exact nets.now.approx }
    requires patterns { wide.old.patterns ≡ patterns.now }
    requires some { 0 < length patterns.now.vectors }
    requires outputs { AreWideOutputsOf nets.now.exact patterns.now.vectors outputs.now }
    requires wide { wide.old.net ≡ nets.now.approx }
    ensures { IsFirstGreatest (net_error metric nets.now.exact nets.now.approx) patterns.now.vectors
        result.error result.at }
{
    let count = patterns.count();
    let mut greatest = Greatest { error: 0, at: 0 };
    for q in 0..outputs.len() {
        wide.reach(q);
        let from = 512 * q as u64;
        let used = (count - from).min(512) as u32;
        greatest = greatest_in_block(
            nets,
            metric,
            outputs[q].as_slice(),
            wide.outputs(),
            from,
            used,
            greatest,
            room,
        );
    }
    greatest
}
