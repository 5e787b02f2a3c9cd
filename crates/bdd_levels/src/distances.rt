//! Whether two words are far apart, by one subtraction: the networks over diagrams for the absolute and the
//! signed error of a word.
//!
//! The network of a certificate adds the level to each word and compares twice, so the diagrams of its
//! signals depend on both words everywhere. Here the bit of each place where the words agree and nothing is
//! borrowed is 0, so for two nets that are nearly equal the diagrams are small. Source: the ripple-borrow
//! subtractor.
ghost use Rattle.std.specs.Prelude.{◌≡◌, ◌+◌, ◌*◌, ◌^◌, ◌<◌, ◌≤◌, nat_lt, length, IfOk, OnOk};
ghost use Rattle.semantics.specs.declared.metric.Kind.TheVariants.{Abs, Sabs};
ghost use Rattle.semantics.specs.Error.{distance};
ghost use Rattle.quality_semantics.specs.WordNets.{signals, BeginsWith, AreSignalsOf};
ghost use Rattle.quality_semantics.specs.Laws.{number};
ghost use Rattle.bus_nets.specs.Numbers.{HasBit};
ghost use Rattle.bdd_levels.specs.Subtraction.{IsPlaceOf, IsDifferenceOf};
ghost use Rattle.bdd_levels.specs.Words.{SaysWordExcess};

use bus_nets::bus::Bus;
use bus_nets::forms::XOR2;
use bus_nets::word_net::WordNet;
use net_parts::items::Signal;
use net_parts::mark::Mark;
use semantics::limits::MOST_OUTPUTS;
use std::alloc::{AllocError, Global};

/// The value of the second pin where the first pin is 1, and of the third pin where it is 0.
const CHOICE: [[Mark; 3]; 2] = [
    [Mark::One, Mark::One, Mark::Dash],
    [Mark::Zero, Mark::Dash, Mark::One],
];

/// Appends one place of a subtraction. Returns its bit, and the borrow from the next place.
fn subtract_place(
    net: &mut WordNet,
    a: Signal,
    b: Signal,
    before: Signal,
) -> Result<(Signal, Signal), AllocError>
    requires a_in { a < signals net.old }
    requires b_in { b < signals net.old }
    requires before_in { before < signals net.old }
    ensures more { signals net.old ≤ signals net.new }
    ensures within { IfOk result (λ r. (r.0 < signals net.new) × (r.1 < signals net.new)) }
    ensures begins { BeginsWith net.new net.old }
    ensures is { IfOk result (λ r. IsPlaceOf net.new (record {
      minuend = a;
      subtrahend = b;
      borrow_in = before;
      difference = r.0;
      borrow_out = r.1;
    })) }
{
    let differs = net.append_form([a, b], &XOR2)?;
    let bit = net.append_form([differs, before], &XOR2)?;
    let borrow = net.append_form([differs, b, before], &CHOICE)?;
    Ok((bit, borrow))
}

/// Appends the difference of two words of equal width. Returns the difference, and the borrow past its last
/// place.
fn difference(
    alloc: Global,
    net: &mut WordNet,
    x: &Bus,
    y: &Bus,
) -> Result<(Bus, Signal), AllocError>
    requires x_in { AreSignalsOf net.old x.now }
    requires y_in { AreSignalsOf net.old y.now }
    requires widths { length x.now ≡ length y.now }
    ensures more { signals net.old ≤ signals net.new }
    ensures within { IfOk result (λ r. AreSignalsOf net.new r.0 × (r.1 < signals net.new)) }
    ensures begins { BeginsWith net.new net.old }
    ensures is { IfOk result (λ r. IsDifferenceOf net.new x.now y.now r.0 r.1) }
{
    let mut bits = Bus::new(alloc);
    let mut borrow = net.zero();
    for place in 0..x.len() {
        let (bit, next) = subtract_place(net, *x.get(place), *y.get(place), borrow)?;
        bits.push(bit)?;
        borrow = next;
    }
    Ok((bits, borrow))
}

/// Appends a signal that says whether `factor` times 2^`width` exceeds the sum of the numbers of `x` and `y`.
fn is_short(
    net: &mut WordNet,
    width: u32,
    factor: u128,
    x: &Bus,
    y: &Bus,
) -> Result<Signal, AllocError>
    requires narrow { width ≤ MOST_OUTPUTS }
    requires x_in { AreSignalsOf net.old x.now }
    requires y_in { AreSignalsOf net.old y.now }
    ensures more { signals net.old ≤ signals net.new }
    ensures within { IfOk result (λ s. s < signals net.new) }
    ensures begins { BeginsWith net.new net.old }
    ensures value { IfOk result
        (λ s. HasBit net.new s (λ v. nat_lt (number v x.now + number v y.now) (factor * 2 ^ width))) }
{
    let power = net.constant(1u128 << width)?;
    let whole = net.times(&power, factor)?;
    let sum = net.add(x, y)?;
    net.greater(&whole, &sum)
}

/// Appends a signal that says whether `factor` times the distance of two words of equal width exceeds the
/// number of `level`.
pub(crate) fn far_apart(
    alloc: Global,
    net: &mut WordNet,
    x: &Bus,
    y: &Bus,
    factor: u128,
    level: &Bus,
) -> Result<Signal, AllocError>
    requires narrow { length x.now ≤ MOST_OUTPUTS }
    requires widths { length x.now ≡ length y.now }
    requires x_in { AreSignalsOf net.old x.now }
    requires y_in { AreSignalsOf net.old y.now }
    requires level_in { AreSignalsOf net.old level.now }
    ensures more { signals net.old ≤ signals net.new }
    ensures within { IfOk result (λ s. s < signals net.new) }
    ensures begins { BeginsWith net.new net.old }
    ensures value { IfOk result
        (λ s. HasBit net.new s (λ v. nat_lt (number v level.now)
        (distance (number v x.now) (number v y.now) * factor))) }
{
    let width = x.len() as u32;
    let (bits, borrow) = difference(alloc, net, x, y)?;
    let scaled = net.times(&bits, factor)?;
    let over = net.greater(&scaled, level)?;
    let under = is_short(net, width, factor, level, &scaled)?;
    net.append_form([borrow, under, over], &CHOICE)
}

/// Appends a signal that says whether the two words are more than `k` apart.
pub(crate) fn absolute_excess(
    alloc: Global,
    net: &mut WordNet,
    exact: &Bus,
    approximate: &Bus,
    k: u128,
) -> Result<Signal, AllocError>
    requires exact_in { AreSignalsOf net.old exact.now }
    requires approximate_in { AreSignalsOf net.old approximate.now }
    requires widths { length exact.now ≡ length approximate.now }
    requires narrow { length exact.now ≤ MOST_OUTPUTS }
    ensures within { IfOk result (λ s. s < signals net.new) }
    ensures begins { OnOk result (BeginsWith net.new net.old) }
    ensures says { IfOk result (SaysWordExcess Abs k
        (record { exact = exact.now; approximate = approximate.now }) net.new) }
{
    let level = net.constant(k)?;
    far_apart(alloc, net, exact, approximate, 1, &level)
}

/// Appends a signal that says whether the two signed words are more than `k` apart. Turning over both signs
/// makes signed order unsigned order.
pub(crate) fn signed_excess(
    alloc: Global,
    net: &mut WordNet,
    exact: &Bus,
    approximate: &Bus,
    k: u128,
) -> Result<Signal, AllocError>
    requires exact_in { AreSignalsOf net.old exact.now }
    requires approximate_in { AreSignalsOf net.old approximate.now }
    requires widths { length exact.now ≡ length approximate.now }
    requires some { 0 < length exact.now }
    requires narrow { length exact.now ≤ MOST_OUTPUTS }
    ensures within { IfOk result (λ s. s < signals net.new) }
    ensures begins { OnOk result (BeginsWith net.new net.old) }
    ensures says { IfOk result (SaysWordExcess Sabs k
        (record { exact = exact.now; approximate = approximate.now }) net.new) }
{
    let flipped_exact = net.flip_top(exact)?;
    let flipped_approximate = net.flip_top(approximate)?;
    let level = net.constant(k)?;
    far_apart(alloc, net, &flipped_exact, &flipped_approximate, 1, &level)
}
