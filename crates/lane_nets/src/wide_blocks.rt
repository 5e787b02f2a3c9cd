//! The values of a net in blocks of 512 patterns: eight blocks of 64 at a time.
ghost use Rattle.std.specs.Prelude.{◌≡◌, ◌+◌, ◌*◌, ◌<◌, ◌≤◌, ℕ, [], length, map, slice_index};
ghost use Rattle.std.specs.Prelude.{slice_index_or};
ghost use Rattle.semantics.specs.Net.{input_count, signal_count};
ghost use Rattle.lane_bits.specs.Rows.{word_count};
ghost use Rattle.lane_bits.specs.Patterns.{pattern_bit};
ghost use Rattle.lane_nets.specs.Words.{values_at};
ghost use Rattle.lane_nets.specs.Wide.{lane_words, IsWideBlock, AreWideOutputs};

use crate::wide_words::eval_wides;
use lane_bits::patterns::Patterns;
use net_core::net::Net;
use std::simd::u64x8;

/// The eight words of a row from word `from` on, with zeros past the row's end.
pub(crate) fn wide_at(row: &[u64], from: usize) -> u64x8
    requires { from ≤ length row.now }
    ensures { (j : ℕ) → j < 8 → slice_index result j ≡ slice_index row.now (from + j) }
{
    let rest = &row[from..];
    if rest.len() >= 8 {
        return u64x8::from_slice(rest);
    }
    let mut words = [0; 8];
    words[..rest.len()].copy_from_slice(rest);
    u64x8::from_array(words)
}

/// Sets the words of the inputs to those of wide block q.
fn set_wide_inputs(patterns: &Patterns, q: usize, wides: &mut [u64x8])
    requires room { patterns.now.inputs ≤ length wides.old }
    requires within { 8 * q ≤ word_count (length patterns.now.vectors) }
    ensures { (j b s : ℕ) → j < 8 → b < 64 → s < patterns.now.inputs
        → values_at (lane_words wides.new j) b s ≡ pattern_bit patterns.now.vectors s (64 * (8 * q + j) + b) }
{
    for s in 0..patterns.inputs() {
        wides[s as usize] = wide_at(patterns.row(s), 8 * q);
    }
}

/// Sets `wides` to wide block q of a net's values.
fn set_wide_block(net: &Net, patterns: &Patterns, q: usize, wides: &mut [u64x8])
    requires inputs { patterns.now.inputs ≡ input_count net.now }
    requires within { 8 * q ≤ word_count (length patterns.now.vectors) }
    requires room { length wides.old ≡ signal_count net.now }
    ensures { IsWideBlock net.now patterns.now.vectors q wides.new }
{
    net.see_sound();
    set_wide_inputs(patterns, q, wides);
    eval_wides(net, wides);
}

/// Sets `outputs` to the wide words of the outputs.
fn set_signals(net: &Net, wides: &[u64x8], outputs: &mut [u64x8])
    requires wides { length wides.now ≡ signal_count net.now }
    requires room { length outputs.old ≡ length net.now.outputs }
    ensures { outputs.new ≡ map (λ s. slice_index_or wides.now s []) net.now.outputs }
{
    net.see_sound();
    for i in 0..net.outputs() {
        outputs[i as usize] = wides[net.output(i) as usize];
    }
}

/// Sets `outputs` to a net's outputs in wide block q, by the values of its signals, which are computed into
/// `wides`.
pub(crate) fn set_table_outputs(
    net: &Net,
    patterns: &Patterns,
    q: usize,
    wides: &mut [u64x8],
    outputs: &mut [u64x8],
)
    requires inputs { patterns.now.inputs ≡ input_count net.now }
    requires within { 8 * q ≤ word_count (length patterns.now.vectors) }
    requires wides { length wides.old ≡ signal_count net.now }
    requires room { length outputs.old ≡ length net.now.outputs }
    ensures { AreWideOutputs net.now patterns.now.vectors q outputs.new }
{
    net.see_sound();
    set_wide_block(net, patterns, q, wides);
    set_signals(net, wides, outputs);
}
