//! The network over diagrams of the relative error, where the level is a fraction with small terms.
//!
//! `quality_rel` multiplies both words by a million, which costs diagrams of some twenty more bits for each
//! word. Over words of w bits the level of k millionths may be replaced by a fraction r that is at most k
//! millionths, where no fraction above r and up to k millionths has a denominator below 2^w: then a distance
//! exceeds the part r of the exact word exactly where it exceeds k millionths of that word. Such a fraction
//! is found by the mediants of Farey, and tested.
ghost use Rattle.std.specs.Prelude.{◌≡◌, ℕ, ◌+◌, ◌*◌, ◌^◌, ◌≤◌, ◌<◌, true, length, IfOk, OnOk};
ghost use Rattle.semantics.specs.declared.metric.Kind.TheVariants.{Rel};
ghost use Rattle.quality_semantics.specs.WordNets.{signals, BeginsWith, AreSignalsOf};
ghost use Rattle.bdd_levels.specs.Ratios.{IsAtMost, IsExactly, IsAbove, AreNeighbours, IsRatioFor};
ghost use Rattle.bdd_levels.specs.Words.{SaysWordExcess};

use crate::distances::far_apart;
use bus_nets::bus::Bus;
use bus_nets::word_net::WordNet;
use net_parts::items::Signal;
use semantics::limits::MOST_OUTPUTS;
use std::alloc::{AllocError, Global};

/// The number of parts into which the unit is divided: a level counts millionths.
const MILLION: u128 = 1_000_000;

/// The most mediants that are tried: about a millisecond.
const MOST_MEDIANTS: u32 = 1 << 16;

/// A fraction.
#[derive(Clone, Copy)]
pub struct Ratio {
    pub numerator: u128,
    pub denominator: u128,
}

/// Whether a fraction is seen to be `k` millionths.
fn is_exactly(ratio: Ratio, k: u128) -> bool
    ensures { result ≡ true → IsExactly k ratio }
{
    let parts = ratio.numerator.checked_mul(MILLION);
    let level = k.checked_mul(ratio.denominator);
    match (parts, level) {
        (Some(parts), Some(level)) => parts == level && ratio.denominator > 0,
        _ => false,
    }
}

/// Whether a fraction is seen to be at most `k` millionths.
fn is_at_most(ratio: Ratio, k: u128) -> bool
    ensures { result ≡ true → IsAtMost k ratio }
{
    let parts = ratio.numerator.checked_mul(MILLION);
    let level = k.checked_mul(ratio.denominator);
    match (parts, level) {
        (Some(parts), Some(level)) => parts <= level,
        _ => false,
    }
}

/// Whether a fraction is seen to be more than `k` millionths.
fn is_above(ratio: Ratio, k: u128) -> bool
    ensures { result ≡ true → IsAbove k ratio }
{
    let parts = ratio.numerator.checked_mul(MILLION);
    let level = k.checked_mul(ratio.denominator);
    match (parts, level) {
        (Some(parts), Some(level)) => level < parts,
        _ => false,
    }
}

/// Whether two fractions are neighbours: each fraction between them has at least the sum of their
/// denominators as its denominator.
fn are_neighbours(low: Ratio, high: Ratio) -> bool
    ensures { result ≡ true → AreNeighbours low high }
{
    let first = high.numerator.checked_mul(low.denominator);
    let second = low.numerator.checked_mul(high.denominator);
    match (first, second) {
        (Some(first), Some(second)) => second < first && first - second == 1,
        _ => false,
    }
}

/// Whether the sum of both denominators takes more than `width` bits.
fn are_fine(low: Ratio, high: Ratio, width: u32) -> bool
    requires { width ≤ MOST_OUTPUTS }
    ensures { result ≡ true → 2 ^ width ≤ low.denominator + high.denominator }
{
    low.denominator.saturating_add(high.denominator) >= 1u128 << width
}

/// The fraction whose terms are the sums of those of two, which lies between them.
fn mediant(low: Ratio, high: Ratio) -> Ratio {
    Ratio {
        numerator: low.numerator.saturating_add(high.numerator),
        denominator: low.denominator.saturating_add(high.denominator),
    }
}

/// Two fractions, the first at most `k` millionths and the second above, mostly with no fraction between them
/// whose denominator has at most `width` bits. Nothing is promised of them.
fn around(k: u128, width: u32) -> (Ratio, Ratio)
    requires { width ≤ MOST_OUTPUTS }
{
    let whole = k / MILLION;
    let mut low = Ratio {
        numerator: whole,
        denominator: 1,
    };
    let mut high = Ratio {
        numerator: whole.saturating_add(1),
        denominator: 1,
    };
    for _ in 0..MOST_MEDIANTS {
        if are_fine(low, high, width) || is_exactly(low, k) {
            break;
        }
        let between = mediant(low, high);
        if is_at_most(between, k) {
            low = between;
        } else {
            high = between;
        }
    }
    (low, high)
}

/// A fraction that stands for `k` millionths over words of `width` bits.
#[tactic(auto, using(crate::proofs::Farey::exactly, crate::proofs::Farey::millionths))]
fn ratio_for(k: u128, width: u32) -> Ratio
    requires { width ≤ MOST_OUTPUTS }
    ensures { IsRatioFor width k result }
{
    let (low, high) = around(k, width);
    if is_exactly(low, k) {
        return low;
    }
    if is_at_most(low, k)
        && is_above(high, k)
        && are_neighbours(low, high)
        && are_fine(low, high, width)
    {
        return low;
    }
    Ratio {
        numerator: k,
        denominator: MILLION,
    }
}

/// Appends a signal that says whether the relative error of two words exceeds the fraction: whether their
/// distance times the denominator exceeds the numerator times the exact word, which counts as 1 where it is
/// 0.
fn ratio_excess(
    alloc: Global,
    net: &mut WordNet,
    exact: &Bus,
    approximate: &Bus,
    ratio: Ratio,
) -> Result<Signal, AllocError>
    requires exact_in { AreSignalsOf net.old exact.now }
    requires approximate_in { AreSignalsOf net.old approximate.now }
    requires widths { length exact.now ≡ length approximate.now }
    requires some { 0 < length exact.now }
    requires narrow { length exact.now ≤ MOST_OUTPUTS }
    ensures within { IfOk result (λ s. s < signals net.new) }
    ensures begins { OnOk result (BeginsWith net.new net.old) }
    ensures says { IfOk result (λ s. (k : ℕ) → IsRatioFor (length exact.now) k ratio
        → SaysWordExcess Rel k (record { exact = exact.now; approximate = approximate.now }) net.new s) }
{
    let divisor = net.not_zero_low(exact)?;
    let level = net.times(&divisor, ratio.numerator)?;
    far_apart(alloc, net, exact, approximate, ratio.denominator, &level)
}

/// Appends a signal that says whether the relative error of two words exceeds `k` millionths: the constant 0
/// where no relative error of words of their width does.
pub(crate) fn relative_excess(
    alloc: Global,
    net: &mut WordNet,
    exact: &Bus,
    approximate: &Bus,
    k: u128,
) -> Result<Signal, AllocError>
    requires exact_in { AreSignalsOf net.old exact.now }
    requires approximate_in { AreSignalsOf net.old approximate.now }
    requires widths { length exact.now ≡ length approximate.now }
    requires some { 0 < length exact.now }
    requires narrow { length exact.now ≤ MOST_OUTPUTS }
    ensures within { IfOk result (λ s. s < signals net.new) }
    ensures begins { OnOk result (BeginsWith net.new net.old) }
    ensures says { IfOk result (SaysWordExcess Rel k
        (record { exact = exact.now; approximate = approximate.now }) net.new) }
{
    let width = exact.len() as u32;
    if k >= ((1u128 << width) - 1) * MILLION {
        return Ok(net.zero());
    }
    ratio_excess(alloc, net, exact, approximate, ratio_for(k, width))
}
