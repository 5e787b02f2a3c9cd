//! What masks are made for: two nets, a metric and a bound.
ghost use Rattle.std.specs.Prelude.{◌≡◌, ◌↔◌, ◌<◌, ◌≤◌, ℕ, map, length, IsTrue};
ghost use Rattle.semantics.specs.Net.{signal_count};
ghost use Rattle.semantics.specs.Error.{error_of};
ghost use Rattle.lane_nets.specs.Words.{word_bit, values_at};
ghost use Rattle.lane_nets.specs.Lanes.{lane_at};

use lane_nets::lanes::over_word;
use lane_nets::outputs::set_output_words;
use net_core::net::Net;
use net_errors::compared::Compared;
use semantics::limits::MOST_OUTPUTS;
use semantics::metric::Metric;

/// Two nets, and how far the second may err.
#[derive(Drop)]
pub(crate) struct Judged<'a> {
    pub(crate) nets: Compared<'a>,
    pub(crate) metric: Metric,
    pub(crate) bound: u128,
}

/// The lanes among `used` where the error exceeds the bound, in a block in which the net's signals have
/// `words` and the exact outputs `exact`. The words of the outputs are gathered on the stack.
pub(crate) fn over_bound(
    net: &Net,
    metric: Metric,
    bound: u128,
    words: &[u64],
    exact: &[u64],
    used: u64,
) -> u64
    requires few_outputs { length net.now.outputs ≤ MOST_OUTPUTS }
    requires words { length words.now ≡ signal_count net.now }
    requires exact { length exact.now ≡ length net.now.outputs }
    ensures { (b : ℕ) → b < 64 → IsTrue (word_bit result b) ↔ (IsTrue (word_bit used b)
        × (bound < error_of metric (lane_at exact.now b) (map (values_at words.now b) net.now.outputs))) }
{
    let mut room = [0; MOST_OUTPUTS];
    let outputs = &mut room[..net.outputs() as usize];
    set_output_words(net, words, outputs);
    over_word(metric, bound, exact, outputs) & used
}
