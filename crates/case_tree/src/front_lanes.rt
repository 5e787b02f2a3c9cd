//! The values of all signals at 64 input vectors at a time, which begin with the same bits, the front, and go
//! on behind it in every way.
ghost use Rattle.std.specs.Prelude.{◌≡◌, ℕ, ◌+◌, ◌*◌, ◌<◌, ◌≤◌, false, length, take, drop, slice_index};
ghost use Rattle.std.specs.Prelude.{slice_index_or};
ghost use Rattle.semantics.specs.Net.{input_count, signal_count};
ghost use Rattle.semantics.specs.Error.{number_of};
ghost use Rattle.semantics.specs.Vectors.{all_vectors};
ghost use Rattle.lane_bits.specs.Patterns.{pattern_bit};
ghost use Rattle.lane_nets.specs.Words.{word_bit, values_at, HasValues};
ghost use Rattle.case_tree.specs.Behind.{AreValuesBehind};

use lane_bits::patterns::Patterns;
use lane_nets::values::eval_words;
use net_core::net::Net;

/// The word all of whose bits are this one.
fn splat(bit: bool) -> u64
    ensures { (b : ℕ) → b < 64 → word_bit result b ≡ bit }
{
    if bit { u64::MAX } else { 0 }
}

/// Sets the first words to those of inputs that have the front's bits at every pattern.
fn set_front(front: &[bool], words: &mut [u64])
    requires { length front.now ≤ length words.old }
    ensures { (b s : ℕ) → b < 64 → s < length front.now
        → values_at words.new b s ≡ slice_index_or front.now s false }
{
    for (s, bit) in front.iter().enumerate() {
        words[s] = splat(*bit);
    }
}

/// Sets the words from word `from` on to those of inputs that have the bits of these patterns.
fn set_rest(patterns: &Patterns, from: usize, words: &mut [u64])
    requires room { from + patterns.now.inputs ≤ length words.old }
    requires some { 0 < length patterns.now.vectors }
    ensures rest { (b s : ℕ) → b < 64 → s < patterns.now.inputs
        → values_at words.new b (from + s) ≡ pattern_bit patterns.now.vectors s b }
    ensures front { (s : ℕ) → s < from → slice_index words.new s ≡ slice_index words.old s }
{
    for s in 0..patterns.inputs() {
        words[from + s as usize] = patterns.row(s)[0];
    }
}

/// Sets `words` to the values at the input vectors that begin with this front and go on with the bits of
/// these patterns.
pub(crate) fn set_values_behind(net: &Net, front: &[bool], rest: &Patterns, words: &mut [u64])
    requires width { length front.now + rest.now.inputs ≡ input_count net.now }
    requires all { rest.now.vectors ≡ all_vectors rest.now.inputs }
    requires few { rest.now.inputs ≤ 6 }
    requires words { length words.old ≡ signal_count net.now }
    ensures { AreValuesBehind net.now front.now words.new }
{
    net.see_sound();
    set_front(front, words);
    set_rest(rest, front.len(), words);
    eval_words(net, words);
}

/// The number of a vector, whose first bit is the lowest bit.
pub(crate) fn lane_of(bits: &[bool]) -> u32
    requires { length bits.now ≤ 6 }
    ensures value { result ≡ number_of bits.now }
    ensures low { result < 64 }
{
    let mut number = 0;
    for i in 0..bits.len() {
        number = number * 2 + u32::from(bits[bits.len() - 1 - i]);
    }
    number
}
