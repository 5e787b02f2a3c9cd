//! The nodes of graphs. Source: AIGER's and-inverter graphs.

use crate::literal::Literal;

/// The conjunction of two literals.
#[derive(Clone, Copy, PartialEq, Eq, Hash)]
pub struct Gate {
    pub left: Literal,
    pub right: Literal,
}

/// What a node is.
#[derive(Clone, Copy)]
pub enum Node {
    /// The constant false.
    False,
    /// An input, by its number from 0.
    Input(u32),
    /// The conjunction of two literals, each of a node before it.
    And(Literal, Literal),
}
