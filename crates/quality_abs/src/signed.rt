//! The quality network of the absolute error of two's complement words: turning over both signs makes signed
//! order unsigned order.
ghost use Rattle.std.specs.Prelude.{◌≡◌, ◌+◌, ◌-◌, ◌^◌, ◌≤◌, ◌<◌, length, IfOk, OnOk};
ghost use Rattle.semantics.specs.declared.metric.Kind.TheVariants.{Sabs};
ghost use Rattle.quality_semantics.specs.WordNets.{signals, AreSignalsOf};
ghost use Rattle.quality_semantics.specs.Quality.{word_quality, signed_excess};

use bus_nets::bus::{Bus, greatest};
use bus_nets::word_net::WordNet;
use net_parts::items::Signal;
use semantics::limits::MOST_OUTPUTS;
use std::alloc::{AllocError, Global};

/// Appends a signal that says whether two signed words, given as buses of the same width, are more than `k`
/// apart.
fn excess(net: &mut WordNet, exact: &Bus, approx: &Bus, k: u128) -> Result<Signal, AllocError>
    requires exact_in { AreSignalsOf net.old exact.now }
    requires approx_in { AreSignalsOf net.old approx.now }
    requires widths { length exact.now ≡ length approx.now }
    requires some { 0 < length exact.now }
    ensures ok { OnOk result (net.new ≡ (signed_excess net.old exact.now approx.now k).net) }
    ensures signal { IfOk result (λ s. s ≡ (signed_excess net.old exact.now approx.now k).signal) }
    ensures within { IfOk result (λ s. s < signals net.new) }
{
    let flipped_exact = net.flip_top(exact)?;
    let flipped_approx = net.flip_top(approx)?;
    let bound = net.constant(k)?;
    net.exceed(&flipped_exact, &flipped_approx, &bound)
}

/// Appends the tables of one signed word, given as two buses of the same width, and returns the signal that
/// says whether the words are more than `k` apart: the constant 0 where no signed words of that width are.
pub fn append_signed_word(
    net: &mut WordNet,
    exact: &Bus,
    approx: &Bus,
    k: u128,
) -> Result<Signal, AllocError>
    requires exact_in { AreSignalsOf net.old exact.now }
    requires approx_in { AreSignalsOf net.old approx.now }
    requires widths { length exact.now ≡ length approx.now }
    requires narrow { length exact.now ≤ MOST_OUTPUTS }
    ensures ok { OnOk result (net.new ≡ (word_quality Sabs net.old exact.now approx.now k).net) }
    ensures signal { IfOk result (λ s. s ≡ (word_quality Sabs net.old exact.now approx.now k).signal) }
    ensures within { IfOk result (λ s. s < signals net.new) }
{
    let most = greatest(exact);
    if k >= most {
        Ok(net.zero())
    } else {
        excess(net, exact, approx, k)
    }
}
