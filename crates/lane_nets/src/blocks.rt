//! The values of a net at all patterns, in blocks of 64.
ghost use Rattle.std.specs.Prelude.{◌≡◌, ◌+◌, ◌*◌, ◌<◌, ◌≤◌, ℕ, length, IfOk};
ghost use Rattle.semantics.specs.Net.{input_count, signal_count};
ghost use Rattle.lane_bits.specs.Rows.{word_count};
ghost use Rattle.lane_bits.specs.Patterns.{pattern_bit};
ghost use Rattle.net_core.specs.Built.{IsBuilt};
ghost use Rattle.lane_nets.specs.Words.{values_at};
ghost use Rattle.lane_nets.specs.Blocks.{IsBlock, AreBlocksOf};

use crate::values::eval_words;
use crate::word_list::WordList;
use lane_bits::kernels::word_count;
use lane_bits::patterns::Patterns;
use net_core::items::Items;
use net_core::net::Net;
use std::alloc::{AllocError, Global};

/// Sets the words of the inputs to those of block k.
fn set_inputs(patterns: &Patterns, k: usize, words: &mut [u64])
    requires room { patterns.now.inputs ≤ length words.old }
    requires within { k < word_count (length patterns.now.vectors) }
    ensures { (b s : ℕ) → b < 64 → s < patterns.now.inputs
        → values_at words.new b s ≡ pattern_bit patterns.now.vectors s (64 * k + b) }
{
    for s in 0..patterns.inputs() {
        words[s as usize] = patterns.row(s)[k];
    }
}

/// Sets `words` to block k of a net's values.
pub fn set_block(net: &Net, patterns: &Patterns, k: usize, words: &mut [u64])
    requires inputs { patterns.now.inputs ≡ input_count net.now }
    requires within { k < word_count (length patterns.now.vectors) }
    requires room { length words.old ≡ signal_count net.now }
    ensures block { IsBlock net.now patterns.now.vectors k words.new }
    ensures built { IsBuilt net.now }
{
    net.see_sound();
    set_inputs(patterns, k, words);
    eval_words(net, words);
}

/// Block k of a net's values.
pub fn block(
    alloc: Global,
    net: &Net,
    patterns: &Patterns,
    k: usize,
) -> Result<WordList, AllocError>
    requires inputs { patterns.now.inputs ≡ input_count net.now }
    requires within { k < word_count (length patterns.now.vectors) }
    ensures { IfOk result (IsBlock net.now patterns.now.vectors k) }
{
    let mut words = vec![in alloc; 0; net.signals() as usize]?;
    set_block(net, patterns, k, &mut words);
    Ok(WordList::of(words))
}

/// All blocks of a net's values.
pub fn blocks(alloc: Global, net: &Net, patterns: &Patterns) -> Result<Items<WordList>, AllocError>
    requires { patterns.now.inputs ≡ input_count net.now }
    ensures { IfOk result (AreBlocksOf net.now patterns.now.vectors) }
{
    let mut blocks = Items::new(alloc);
    for k in 0..word_count(patterns.count()) {
        blocks.push(block(alloc, net, patterns, k as usize)?)?;
    }
    Ok(blocks)
}
