//! The outputs of a net at 64 patterns at a time: a word each.
ghost use Rattle.std.specs.Prelude.{◌≡◌, ◌<◌, length, IfOk};
ghost use Rattle.semantics.specs.Net.{input_count, signal_count};
ghost use Rattle.lane_nets.specs.Words.{word_bit};
ghost use Rattle.lane_bits.specs.Rows.{word_count};
ghost use Rattle.lane_nets.specs.Lanes.{output_words, IsOutputBlock, AreOutputWordsOf};

use crate::blocks::set_block;
use crate::word_list::WordList;
use lane_bits::kernels::word_count;
use lane_bits::patterns::Patterns;
use net_core::items::Items;
use net_core::net::Net;
use std::alloc::{AllocError, Global};

/// One bit of a word.
pub(crate) fn word_bit(word: u64, b: u32) -> bool
    requires { b < 64 }
    ensures { result ≡ word_bit word b }
{
    (word >> b) & 1 == 1
}

/// Sets `outputs` to the words of the outputs.
pub fn set_output_words(net: &Net, words: &[u64], outputs: &mut [u64])
    requires words { length words.now ≡ signal_count net.now }
    requires room { length outputs.old ≡ length net.now.outputs }
    ensures { outputs.new ≡ output_words net.now words.now }
{
    net.see_sound();
    for i in 0..net.outputs() {
        outputs[i as usize] = words[net.output(i) as usize];
    }
}

/// The words of the outputs, in memory of their own.
fn output_row(alloc: Global, net: &Net, words: &[u64]) -> Result<WordList, AllocError>
    requires { length words.now ≡ signal_count net.now }
    ensures { IfOk result (λ row. row ≡ output_words net.now words.now) }
{
    let mut row = vec![in alloc; 0; net.outputs() as usize]?;
    set_output_words(net, words, &mut row);
    Ok(WordList::of(row))
}

/// The words of a net's outputs in block k.
pub fn output_block(
    alloc: Global,
    net: &Net,
    patterns: &Patterns,
    k: usize,
) -> Result<WordList, AllocError>
    requires inputs { patterns.now.inputs ≡ input_count net.now }
    requires within { k < word_count (length patterns.now.vectors) }
    ensures { IfOk result (IsOutputBlock net.now patterns.now.vectors k) }
{
    let mut room = vec![in alloc; 0; net.signals() as usize]?;
    let words = room.as_mut_slice();
    set_block(net, patterns, k, words);
    output_row(alloc, net, words)
}

/// The words of a net's outputs at all patterns, in blocks of 64.
pub fn output_rows(
    alloc: Global,
    net: &Net,
    patterns: &Patterns,
) -> Result<Items<WordList>, AllocError>
    requires { patterns.now.inputs ≡ input_count net.now }
    ensures { IfOk result (AreOutputWordsOf net.now patterns.now.vectors) }
{
    let mut rows = Items::new(alloc);
    for k in 0..word_count(patterns.count()) {
        rows.push(output_block(alloc, net, patterns, k as usize)?)?;
    }
    Ok(rows)
}
