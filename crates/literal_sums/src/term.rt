//! A literal with a weight.

use aig_core::literal::Literal;

/// A literal, and what it counts in a sum where it is true, modulo 2^32.
#[derive(Clone, Copy)]
pub struct Term {
    pub literal: Literal,
    pub weight: u32,
}
