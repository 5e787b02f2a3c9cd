//! The quality networks of the absolute error, of unsigned and of signed words. Source: SALSA's quality
//! function circuit.
#![tactic(auto)]

ghost use Rattle.std.specs.Prelude.{◌≡◌, ◌+◌, ◌-◌, ◌^◌, ◌≤◌, ◌<◌, length, IfOk, OnOk};
ghost use Rattle.semantics.specs.declared.metric.Kind.TheVariants.{Abs};
ghost use Rattle.quality_semantics.specs.WordNets.{signals, AreSignalsOf};
ghost use Rattle.quality_semantics.specs.Quality.{word_quality, absolute_excess};

mod signed;

pub use crate::signed::append_signed_word;
use bus_nets::bus::{Bus, greatest};
use bus_nets::word_net::WordNet;
use net_parts::items::Signal;
use semantics::limits::MOST_OUTPUTS;
use std::alloc::{AllocError, Global};

/// Appends a signal that says whether the numbers of two buses are more than `k` apart.
fn excess(net: &mut WordNet, exact: &Bus, approx: &Bus, k: u128) -> Result<Signal, AllocError>
    requires exact_in { AreSignalsOf net.old exact.now }
    requires approx_in { AreSignalsOf net.old approx.now }
    ensures ok { OnOk result (net.new ≡ (absolute_excess net.old exact.now approx.now k).net) }
    ensures signal { IfOk result (λ s. s ≡ (absolute_excess net.old exact.now approx.now k).signal) }
    ensures within { IfOk result (λ s. s < signals net.new) }
{
    let bound = net.constant(k)?;
    net.exceed(exact, approx, &bound)
}

/// Appends the tables of one word, given as two buses of the same width, and returns the signal that says
/// whether the words are more than `k` apart: the constant 0 where no words of that width are.
pub fn append_word(
    net: &mut WordNet,
    exact: &Bus,
    approx: &Bus,
    k: u128,
) -> Result<Signal, AllocError>
    requires exact_in { AreSignalsOf net.old exact.now }
    requires approx_in { AreSignalsOf net.old approx.now }
    requires widths { length exact.now ≡ length approx.now }
    requires narrow { length exact.now ≤ MOST_OUTPUTS }
    ensures ok { OnOk result (net.new ≡ (word_quality Abs net.old exact.now approx.now k).net) }
    ensures signal { IfOk result (λ s. s ≡ (word_quality Abs net.old exact.now approx.now k).signal) }
    ensures within { IfOk result (λ s. s < signals net.new) }
{
    let most = greatest(exact);
    if k >= most {
        Ok(net.zero())
    } else {
        excess(net, exact, approx, k)
    }
}
