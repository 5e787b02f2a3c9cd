//! The quality network of the relative error, in parts per million. Source: SALSA's quality function circuit.
#![tactic(auto)]

ghost use Rattle.std.specs.Prelude.{◌≡◌, ◌+◌, ◌-◌, ◌*◌, ◌^◌, ◌≤◌, ◌<◌, length, IfOk, OnOk};
ghost use Rattle.semantics.specs.declared.metric.Kind.TheVariants.{Rel};
ghost use Rattle.quality_semantics.specs.WordNets.{signals, AreSignalsOf};
ghost use Rattle.quality_semantics.specs.Quality.{word_quality, relative_excess};

use bus_nets::bus::{Bus, greatest};
use bus_nets::word_net::WordNet;
use net_parts::items::Signal;
use semantics::limits::MOST_OUTPUTS;
use std::alloc::{AllocError, Global};

/// The number of parts into which the unit is divided: a level counts millionths.
const MILLION: u128 = 1_000_000;

/// Appends a signal that says whether the relative error of two words, given as buses of the same width,
/// exceeds `k`: whether a million times their distance exceeds `k` times the exact word, which counts as 1
/// where it is 0.
fn excess(net: &mut WordNet, exact: &Bus, approx: &Bus, k: u128) -> Result<Signal, AllocError>
    requires exact_in { AreSignalsOf net.old exact.now }
    requires approx_in { AreSignalsOf net.old approx.now }
    requires some { 0 < length exact.now }
    ensures ok { OnOk result (net.new ≡ (relative_excess net.old exact.now approx.now k).net) }
    ensures signal { IfOk result (λ s. s ≡ (relative_excess net.old exact.now approx.now k).signal) }
    ensures within { IfOk result (λ s. s < signals net.new) }
{
    let divisor = net.not_zero_low(exact)?;
    let scaled_exact = net.times(exact, MILLION)?;
    let scaled_approx = net.times(approx, MILLION)?;
    let level = net.times(&divisor, k)?;
    net.exceed(&scaled_exact, &scaled_approx, &level)
}

/// Appends the tables of one word, given as two buses of the same width, and returns the signal that says
/// whether the relative error exceeds `k`: the constant 0 where none of words of that width does.
pub fn append_word(
    net: &mut WordNet,
    exact: &Bus,
    approx: &Bus,
    k: u128,
) -> Result<Signal, AllocError>
    requires exact_in { AreSignalsOf net.old exact.now }
    requires approx_in { AreSignalsOf net.old approx.now }
    requires widths { length exact.now ≡ length approx.now }
    requires narrow { length exact.now ≤ MOST_OUTPUTS }
    ensures ok { OnOk result (net.new ≡ (word_quality Rel net.old exact.now approx.now k).net) }
    ensures signal { IfOk result (λ s. s ≡ (word_quality Rel net.old exact.now approx.now k).signal) }
    ensures within { IfOk result (λ s. s < signals net.new) }
{
    let most = greatest(exact);
    if k >= most * MILLION {
        Ok(net.zero())
    } else {
        excess(net, exact, approx, k)
    }
}
