//! The network of a level over outputs that are cut into words: whether the error of some word exceeds the
//! level. Each word has the network of its kind of error, and the signals of the words are joined.
ghost use Rattle.std.specs.Prelude.{◌≡◌, ◌<◌, ◌≤◌, ◌+◌, ◌||◌, length, IfOk, OnOk};
ghost use Rattle.semantics.specs.Error.{word_width, word_count};
ghost use Rattle.quality_semantics.specs.WordNets.{started, signals, BeginsWith, AreSignalsOf};
ghost use Rattle.quality_semantics.specs.Quality.{exact_bus, approximate_bus};
ghost use Rattle.bus_nets.specs.Numbers.{HasBit};
ghost use Rattle.bdd_levels.specs.Words.{SaysWordExcess, SaysExcess};

use crate::distances::{absolute_excess, signed_excess};
use crate::relative::relative_excess;
use bus_nets::bus::Bus;
use bus_nets::forms::OR2;
use bus_nets::word_net::WordNet;
use net_errors::words::{word_count, word_place};
use net_parts::items::Signal;
use semantics::limits::MOST_OUTPUTS;
use semantics::metric::{Kind, Metric};
use std::alloc::{AllocError, Global};

/// Appends a signal that says whether the error of the approximate word against the exact one exceeds `k`.
fn word_excess(
    alloc: Global,
    net: &mut WordNet,
    kind: Kind,
    exact: &Bus,
    approximate: &Bus,
    k: u128,
) -> Result<Signal, AllocError>
    requires exact_in { AreSignalsOf net.old exact.now }
    requires approximate_in { AreSignalsOf net.old approximate.now }
    requires widths { length exact.now ≡ length approximate.now }
    requires some { 0 < length exact.now }
    requires narrow { length exact.now ≤ MOST_OUTPUTS }
    ensures within { IfOk result (λ s. s < signals net.new) }
    ensures begins { OnOk result (BeginsWith net.new net.old) }
    ensures says { IfOk result (SaysWordExcess kind k
        (record { exact = exact.now; approximate = approximate.now }) net.new) }
{
    match kind {
        Kind::Abs => absolute_excess(alloc, net, exact, approximate, k),
        Kind::Rel => relative_excess(alloc, net, exact, approximate, k),
        Kind::Ham => quality_ham::append_word(net, exact, approximate, k),
        Kind::Sabs => signed_excess(alloc, net, exact, approximate, k),
    }
}

/// Appends a signal that says whether the error of word `word` exceeds `k`. The inputs of the network are
/// `outputs` exact outputs, and as many approximate ones behind them.
fn excess_at(
    alloc: Global,
    net: &mut WordNet,
    metric: Metric,
    outputs: u32,
    word: u32,
    k: u128,
) -> Result<Signal, AllocError>
    requires start { BeginsWith net.old (started (outputs + outputs)) }
    requires few { outputs ≤ MOST_OUTPUTS }
    requires word { word < word_count metric outputs }
    ensures within { IfOk result (λ s. s < signals net.new) }
    ensures begins { OnOk result (BeginsWith net.new net.old) }
    ensures says { IfOk result (SaysWordExcess metric.kind k (record {
      exact = exact_bus (word_width metric outputs) outputs word;
      approximate = approximate_bus (word_width metric outputs) outputs word;
    }) net.new) }
{
    let (first, size) = word_place(metric, outputs, word);
    let exact = net.input_bus(first, size)?;
    let approximate = net.input_bus(outputs + first, size)?;
    word_excess(alloc, net, metric.kind, &exact, &approximate, k)
}

/// A signal that says whether one of two signals is 1: the second where the first is the constant 0, else
/// that of a table more.
fn either(net: &mut WordNet, first: Signal, second: Signal) -> Result<Signal, AllocError>
    requires first_in { first < signals net.old }
    requires second_in { second < signals net.old }
    ensures within { IfOk result (λ s. s < signals net.new) }
    ensures begins { BeginsWith net.new net.old }
    ensures value { IfOk result (λ s. HasBit net.new s (λ v. v first || v second)) }
{
    if first == net.zero() {
        return Ok(second);
    }
    net.append_form([first, second], &OR2)
}

/// Appends a signal that says whether the error of the approximate outputs, which are the last `outputs`
/// inputs of the network, against the exact ones exceeds `k`.
pub(crate) fn excess(
    alloc: Global,
    net: &mut WordNet,
    metric: Metric,
    outputs: u32,
    k: u128,
) -> Result<Signal, AllocError>
    requires start { net.old ≡ started (outputs + outputs) }
    requires few { outputs ≤ MOST_OUTPUTS }
    ensures within { IfOk result (λ s. s < signals net.new) }
    ensures says { IfOk result (SaysExcess metric outputs k net.new) }
{
    let mut over = net.zero();
    for word in 0..word_count(metric, outputs) {
        let here = excess_at(alloc, net, metric, outputs, word, k)?;
        over = either(net, over, here)?;
    }
    Ok(over)
}
