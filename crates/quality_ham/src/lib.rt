//! The quality network of the Hamming error. Source: SALSA's quality function circuit.
#![tactic(auto)]

ghost use Rattle.std.specs.Prelude.{◌≡◌, ◌+◌, ◌≤◌, ◌<◌, length, IfOk, OnOk};
ghost use Rattle.semantics.specs.declared.metric.Kind.TheVariants.{Ham};
ghost use Rattle.quality_semantics.specs.WordNets.{signals, AreSignalsOf};
ghost use Rattle.quality_semantics.specs.Quality.{word_quality, differing_excess};

use bus_nets::bus::Bus;
use bus_nets::word_net::WordNet;
use net_parts::items::Signal;
use semantics::limits::MOST_OUTPUTS;
use std::alloc::{AllocError, Global};

/// Appends a signal that says whether two words, given as buses of the same width, differ in more than `k`
/// bits.
fn excess(net: &mut WordNet, exact: &Bus, approx: &Bus, k: u32) -> Result<Signal, AllocError>
    requires exact_in { AreSignalsOf net.old exact.now }
    requires approx_in { AreSignalsOf net.old approx.now }
    requires low { k < MOST_OUTPUTS }
    ensures ok { OnOk result (net.new ≡ (differing_excess net.old exact.now approx.now k).net) }
    ensures signal { IfOk result (λ s. s ≡ (differing_excess net.old exact.now approx.now k).signal) }
    ensures within { IfOk result (λ s. s < signals net.new) }
{
    let differences = net.differ(exact, approx)?;
    net.at_least(&differences, k + 1)
}

/// Appends the tables of one word, given as two buses of the same width, and returns the signal that says
/// whether the words differ in more than `k` bits: the constant 0 where no words of that width do.
pub fn append_word(
    net: &mut WordNet,
    exact: &Bus,
    approx: &Bus,
    k: u128,
) -> Result<Signal, AllocError>
    requires exact_in { AreSignalsOf net.old exact.now }
    requires approx_in { AreSignalsOf net.old approx.now }
    requires widths { length exact.now ≡ length approx.now }
    requires narrow { length exact.now ≤ MOST_OUTPUTS }
    ensures ok { OnOk result (net.new ≡ (word_quality Ham net.old exact.now approx.now k).net) }
    ensures signal { IfOk result (λ s. s ≡ (word_quality Ham net.old exact.now approx.now k).signal) }
    ensures within { IfOk result (λ s. s < signals net.new) }
{
    let width = exact.len();
    if k >= width as u128 {
        Ok(net.zero())
    } else {
        excess(net, exact, approx, k as u32)
    }
}
