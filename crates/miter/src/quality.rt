//! The quality network of all words: the tables of each word, one word behind another, and the disjunctions
//! of the signals that say which words err by too much.
ghost use Rattle.std.specs.Prelude.{◌≡◌, ◌+◌, ◌<◌, ◌≤◌, length, IfOk, OnOk};
ghost use Rattle.semantics.specs.Error.{word_width, word_count};
ghost use Rattle.quality_semantics.specs.WordNets.{signals, started, AreSignalsOf};
ghost use Rattle.quality_semantics.specs.Quality.{word_quality, exact_bus, approximate_bus, joined};
ghost use Rattle.quality_semantics.specs.Quality.{after_words, quality_net};

use bus_nets::bus::Bus;
use bus_nets::forms::OR2;
use bus_nets::word_net::WordNet;
use net_core::items::Signal;
use net_core::net::Net;
use net_errors::words::{word_count, word_place};
use semantics::limits::MOST_OUTPUTS;
use semantics::metric::{Kind, Metric};
use std::alloc::{AllocError, Global};

/// Appends the tables of one word, given as two buses of the same width, and returns the signal that says
/// whether the word's error exceeds `k`.
fn append_word(
    net: &mut WordNet,
    kind: Kind,
    exact: &Bus,
    approx: &Bus,
    k: u128,
) -> Result<Signal, AllocError>
    requires exact_in { AreSignalsOf net.old exact.now }
    requires approx_in { AreSignalsOf net.old approx.now }
    requires widths { length exact.now ≡ length approx.now }
    requires narrow { length exact.now ≤ MOST_OUTPUTS }
    ensures ok { OnOk result (net.new ≡ (word_quality kind net.old exact.now approx.now k).net) }
    ensures signal { IfOk result (λ s. s ≡ (word_quality kind net.old exact.now approx.now k).signal) }
    ensures within { IfOk result (λ s. s < signals net.new) }
{
    match kind {
        Kind::Abs => quality_abs::append_word(net, exact, approx, k),
        Kind::Rel => quality_rel::append_word(net, exact, approx, k),
        Kind::Ham => quality_ham::append_word(net, exact, approx, k),
        Kind::Sabs => quality_abs::append_signed_word(net, exact, approx, k),
    }
}

/// Appends the tables of word `word`, from 0, of `outputs` outputs, where the inputs of the network are the
/// exact outputs and then the approximate ones. Returns the signal that says whether the word's error exceeds
/// `k`.
fn append_word_at(
    net: &mut WordNet,
    metric: Metric,
    outputs: u32,
    word: u32,
    k: u128,
) -> Result<Signal, AllocError>
    requires inputs { net.old.inputs ≡ outputs + outputs }
    requires few { outputs ≤ MOST_OUTPUTS }
    requires some { word < word_count metric outputs }
    ensures ok { OnOk result
        (net.new ≡ (word_quality metric.kind net.old (exact_bus (word_width metric outputs) outputs word)
        (approximate_bus (word_width metric outputs) outputs word) k).net) }
    ensures signal { IfOk result
        (λ s. s ≡ (word_quality metric.kind net.old (exact_bus (word_width metric outputs) outputs word)
        (approximate_bus (word_width metric outputs) outputs word) k).signal) }
    ensures within { IfOk result (λ s. s < signals net.new) }
{
    let (first, size) = word_place(metric, outputs, word);
    let exact = net.input_bus(first, size)?;
    let approx = net.input_bus(outputs + first, size)?;
    append_word(net, metric.kind, &exact, &approx, k)
}

/// Joins what word `word`, from 0, says to what the words before it say: the signal that says whether one of
/// these words errs too much. Word 0 stands alone.
fn join(net: &mut WordNet, word: u32, before: Signal, signal: Signal) -> Result<Signal, AllocError>
    requires before_in { before < signals net.old }
    requires signal_in { signal < signals net.old }
    ensures ok { OnOk result
        (net.new ≡ (joined word before (record { net = net.old; signal = signal })).net) }
    ensures signal { IfOk result
        (λ s. s ≡ (joined word before (record { net = net.old; signal = signal })).signal) }
    ensures within { IfOk result (λ s. s < signals net.new) }
{
    if word == 0 {
        Ok(signal)
    } else {
        net.append_form([before, signal], &OR2)
    }
}

/// Appends the tables of all words of `outputs` outputs to a network that has none but the two constants, and
/// returns the signal that says whether the error of some word exceeds `k`.
fn append_words(
    net: &mut WordNet,
    metric: Metric,
    outputs: u32,
    k: u128,
) -> Result<Signal, AllocError>
    requires start { net.old ≡ started (outputs + outputs) }
    requires few { outputs ≤ MOST_OUTPUTS }
    ensures ok { OnOk result
        (net.new ≡ (after_words metric.kind (word_width metric outputs) outputs k
        (word_count metric outputs)).net) }
    ensures signal { IfOk result
        (λ s. s ≡ (after_words metric.kind (word_width metric outputs) outputs k
        (word_count metric outputs)).signal) }
    ensures within { IfOk result (λ s. s < signals net.new) }
{
    let mut over = net.zero();
    for word in 0..word_count(metric, outputs) {
        let signal = append_word_at(net, metric, outputs, word, k)?;
        over = join(net, word, over, signal)?;
    }
    Ok(over)
}

/// The net whose output says whether the error of `outputs` outputs exceeds `k`: the tables of each word, and
/// behind each word but the first the disjunction of what the words so far say. Want of memory is the only
/// error.
pub(crate) fn quality(
    alloc: Global,
    metric: Metric,
    outputs: u32,
    k: u128,
) -> Result<Net, AllocError>
    requires { outputs ≤ MOST_OUTPUTS }
    ensures { IfOk result (λ n. n ≡ quality_net metric outputs k) }
{
    let mut net = WordNet::new(alloc, outputs + outputs)?;
    let output = append_words(&mut net, metric, outputs, k)?;
    net.finish(&[output])
}
