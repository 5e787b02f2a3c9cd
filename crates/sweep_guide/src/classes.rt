//! Classes of signals that agree at the patterns, or are opposite at all of them.
//!
//! Of the words of a signal its value at the first pattern and a key are kept. A signal that is 1 at the
//! first pattern counts by its opposite words, so opposite signals have one key. Two keys may agree by chance
//! where words differ: such a pair is tried, and given up.
use crate::patterns::{scrambled, set_patterns};
use cdcl_core::guide::Candidate;
use lane_nets::values::eval_words;
use net_core::items::{Items, Signal};
use net_core::net::Net;
use std::alloc::{AllocError, Global};
use std::collections::HashMap;

/// The number of blocks of 64 patterns that are simulated.
const BLOCKS: u64 = 4;

/// The number with which the sequence of the patterns begins.
const SEED: u64 = 88_172_645_463_325_252;

/// For each signal whether it is 1 at the first pattern, and a key of its words.
#[derive(Drop)]
pub struct Signatures {
    turned: Vec<bool>,
    keys: Vec<u64>,
}

/// Adds the words of a block to the keys; of the first block the values at the first pattern are kept.
fn add_block(turned: &mut Vec<bool>, keys: &mut Vec<u64>, words: &[u64], first: bool) {
    for (s, word) in words.iter().enumerate() {
        if s < keys.len() && s < turned.len() {
            if first {
                turned[s] = *word & 1 == 1;
            }
            let seen = if turned[s] { !*word } else { *word };
            keys[s] = scrambled(keys[s] ^ seen);
        }
    }
}

impl Signatures {
    /// The signatures of a net's signals.
    pub fn of(alloc: Global, net: &Net) -> Result<Signatures, AllocError> {
        let signals = net.signals() as usize;
        let mut words = vec![in alloc; 0; signals]?;
        let mut turned = vec![in alloc; false; signals]?;
        let mut keys = vec![in alloc; 0; signals]?;
        let mut number = SEED;
        for block in 0..BLOCKS {
            number = set_patterns(&mut words, net.inputs() as usize, number);
            eval_words(net, &mut words);
            add_block(&mut turned, &mut keys, &words, block == 0);
        }
        Ok(Signatures { turned, keys })
    }

    /// The key of a signal.
    fn key(&self, signal: Signal) -> u64 {
        let at = signal as usize;
        if at < self.keys.len() {
            self.keys[at]
        } else {
            0
        }
    }

    /// Whether a signal is 1 at the first pattern.
    fn is_turned(&self, signal: Signal) -> bool {
        let at = signal as usize;
        at < self.turned.len() && self.turned[at]
    }

    /// The pair of the signal and the first signal of its class, or None where the signal is that first one.
    pub fn pair(
        &self,
        firsts: &mut HashMap<u64, Signal>,
        signal: Signal,
    ) -> Result<Option<Candidate>, AllocError> {
        let earlier = *firsts.entry(self.key(signal))?.or_insert(signal);
        if earlier == signal {
            return Ok(None);
        }
        Ok(Some(Candidate {
            signal,
            earlier,
            opposite: self.is_turned(signal) != self.is_turned(earlier),
        }))
    }
}
