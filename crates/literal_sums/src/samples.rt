//! The values of a graph's nodes at input vectors that look like chance.

use aig_core::gate::Node;
use aig_core::graph::Aig;
use aig_core::literal::{Literal, is_negative, node_of};
use std::alloc::{AllocError, Global};

/// How many words hold the values of a node.
pub const WORDS: usize = 16;

/// How many input vectors there are: 64 a word.
pub const VECTORS: usize = 1024;

/// The values of a node: of each vector one bit.
pub type Words = [u64; WORDS];

/// A word that depends on all bits of the number, and looks like chance. Source: SplitMix64.
fn scrambled(number: u64) -> u64 {
    let spread = number.wrapping_mul(0x9e37_79b9_7f4a_7c15);
    let one = (spread ^ (spread >> 30)).wrapping_mul(0xbf58_476d_1ce4_e5b9);
    let two = (one ^ (one >> 27)).wrapping_mul(0x94d0_49bb_1331_11eb);
    two ^ (two >> 31)
}

/// The values of an input.
fn words_of_input(input: u32) -> Words {
    let mut words = [0; WORDS];
    let mut number = u64::from(input).wrapping_add(1).wrapping_mul(WORDS as u64);
    for i in 0..WORDS {
        words[i] = scrambled(number);
        number = number.wrapping_add(1);
    }
    words
}

/// For each node of a graph its values at the vectors, one node behind the other.
#[derive(Drop)]
pub struct Samples {
    words: Vec<u64>,
}

impl Samples {
    /// The values of no node.
    pub fn new(alloc: Global) -> Samples {
        Samples {
            words: Vec::new(alloc),
        }
    }

    /// A word of a literal's values, 0 where there is none.
    pub fn word(&self, literal: Literal, i: usize) -> u64 {
        if i >= WORDS {
            return 0;
        }
        let at = node_of(literal) as usize * WORDS + i;
        if at >= self.words.len() {
            0
        } else if is_negative(literal) {
            !self.words[at]
        } else {
            self.words[at]
        }
    }

    /// The value of a literal at a vector.
    pub fn bit(&self, literal: Literal, vector: usize) -> bool {
        (self.word(literal, vector / 64) >> (vector % 64)) & 1 == 1
    }

    /// The values of the conjunction of two literals.
    fn words_of_both(&self, left: Literal, right: Literal) -> Words {
        let mut words = [0; WORDS];
        for i in 0..WORDS {
            words[i] = self.word(left, i) & self.word(right, i);
        }
        words
    }

    /// Takes the values of the nodes that are new since the last call. Where memory is wanting, the values of
    /// the first of them were taken.
    pub fn extend(&mut self, g: &Aig) -> Result<(), AllocError> {
        for n in self.words.len() / WORDS..g.nodes() as usize {
            let words = match g.node(n as u32) {
                Node::False => [0; WORDS],
                Node::Input(input) => words_of_input(input),
                Node::And(left, right) => self.words_of_both(left, right),
            };
            self.words.extend_from_slice(&words)?;
        }
        Ok(())
    }
}
