//! Cuts of a graph's nodes: at most three nodes that together decide the value of a node, and how they do.
//!
//! Source: cut enumeration, with the highest leaves preferred.

use aig_core::gate::Node;
use aig_core::graph::Aig;
use aig_core::literal::{Literal, is_negative, node_of};
use std::alloc::{AllocError, Global};

/// Stands where a cut has no further leaf.
pub const NO_LEAF: u32 = u32::MAX;

/// How many cuts of a node are kept, beside the node itself.
const MOST_CUTS: usize = 16;

/// The values of the first leaf, as a table over three leaves.
const FIRST_LEAF: u8 = 0xAA;

/// At most three nodes, the lowest first; `NO_LEAF` stands behind them.
#[derive(Clone, Copy, PartialEq, Eq, Hash, Drop)]
pub struct Leaves {
    pub first: u32,
    pub second: u32,
    pub third: u32,
}

impl Leaves {
    /// No node.
    pub fn none() -> Leaves {
        Leaves {
            first: NO_LEAF,
            second: NO_LEAF,
            third: NO_LEAF,
        }
    }

    /// A node alone.
    pub fn one(node: u32) -> Leaves {
        Leaves {
            first: node,
            second: NO_LEAF,
            third: NO_LEAF,
        }
    }

    /// Whether a node is among them.
    pub fn has(self, node: u32) -> bool {
        node == self.first || node == self.second || node == self.third
    }

    /// Whether there are three.
    pub fn is_full(self) -> bool {
        self.third != NO_LEAF
    }

    /// With a node more, where there are at most three then.
    fn with(self, node: u32) -> Option<Leaves> {
        let Leaves {
            first,
            second,
            third,
        } = self;
        if node == NO_LEAF || self.has(node) {
            Some(self)
        } else if self.is_full() {
            None
        } else if node < first {
            Some(Leaves {
                first: node,
                second: first,
                third: second,
            })
        } else if node < second {
            Some(Leaves {
                first,
                second: node,
                third: second,
            })
        } else {
            Some(Leaves {
                first,
                second,
                third: node,
            })
        }
    }

    /// The leaves of both, where there are at most three.
    fn union(self, other: Leaves) -> Option<Leaves> {
        self.with(other.first)?
            .with(other.second)?
            .with(other.third)
    }
}

/// Leaves that decide the value of a node, and the table of its values: bit i is the value where the leaves
/// have the values of the bits of i, the first leaf that of the lowest bit.
#[derive(Clone, Copy, Drop)]
pub struct Cut {
    pub leaves: Leaves,
    pub table: u8,
}

/// The table with the second and the third leaf in each other's place.
fn with_last_two_swapped(table: u8) -> u8 {
    (table & 0xC3) | ((table & 0x0C) << 2) | ((table & 0x30) >> 2)
}

/// The table with the first and the second leaf in each other's place.
fn with_first_two_swapped(table: u8) -> u8 {
    (table & 0x99) | ((table & 0x22) << 1) | ((table & 0x44) >> 1)
}

impl Cut {
    /// The table over leaves among which those of the cut are.
    fn table_over(self, leaves: Leaves) -> u8 {
        let mut table = self.table;
        if !self.leaves.has(leaves.first) {
            table = with_first_two_swapped(with_last_two_swapped(table));
        }
        if !self.leaves.has(leaves.second) {
            table = with_last_two_swapped(table);
        }
        table
    }

    /// The cut of a literal of the node.
    fn of_literal(self, literal: Literal) -> Cut {
        let table = if is_negative(literal) {
            !self.table
        } else {
            self.table
        };
        Cut {
            leaves: self.leaves,
            table,
        }
    }
}

/// The cuts of a graph's nodes. What is found for a node is kept while the graph grows.
#[derive(Drop)]
pub struct Cuts {
    nodes: u32,
    cuts: Vec<Cut>,
    ends: Vec<usize>,
}

impl Cuts {
    /// The cuts of no node.
    pub fn new(alloc: Global) -> Cuts {
        Cuts {
            nodes: 0,
            cuts: Vec::new(alloc),
            ends: Vec::new(alloc),
        }
    }

    /// The place behind the cuts of a node.
    pub fn end(&self, node: u32) -> usize {
        match self.ends.get(node as usize) {
            Some(end) => *end,
            None => 0,
        }
    }

    /// The place of the first cut of a node.
    pub fn start(&self, node: u32) -> usize {
        if node == 0 { 0 } else { self.end(node - 1) }
    }

    /// The cut at a place.
    pub fn cut(&self, at: usize) -> Option<Cut> {
        self.cuts.get(at).copied()
    }

    /// Finds the cuts of the nodes that are new in the graph.
    pub fn extend(&mut self, g: &Aig) -> Result<(), AllocError> {
        for node in self.nodes..g.nodes() {
            match g.node(node) {
                Node::False => self.cuts.push(Cut {
                    leaves: Leaves::none(),
                    table: 0,
                })?,
                Node::Input(_) => self.push_node(node)?,
                Node::And(left, right) => {
                    self.push_gate(left, right)?;
                    self.push_node(node)?;
                }
            }
            self.ends.push(self.cuts.len())?;
            self.nodes = node + 1;
        }
        Ok(())
    }

    /// Adds the cut of a node that is the node itself.
    fn push_node(&mut self, node: u32) -> Result<(), AllocError> {
        self.cuts.push(Cut {
            leaves: Leaves::one(node),
            table: FIRST_LEAF,
        })?;
        Ok(())
    }

    /// Adds the cuts of a gate that join one of each pin.
    fn push_gate(&mut self, left: Literal, right: Literal) -> Result<(), AllocError> {
        let start = self.cuts.len();
        for at in self.start(node_of(left))..self.end(node_of(left)) {
            if let Some(cut) = self.cut(at) {
                self.push_joined(start, cut.of_literal(left), right)?;
            }
        }
        Ok(())
    }

    /// Adds the cuts of a gate that join this one of the one pin and one of the other.
    fn push_joined(&mut self, start: usize, left: Cut, right: Literal) -> Result<(), AllocError> {
        for at in self.start(node_of(right))..self.end(node_of(right)) {
            if let Some(cut) = self.cut(at) {
                self.push_joint(start, left, cut.of_literal(right))?;
            }
        }
        Ok(())
    }

    /// Adds the joint cut of two, for the node whose cuts begin at a place.
    fn push_joint(&mut self, start: usize, left: Cut, right: Cut) -> Result<(), AllocError> {
        let Some(leaves) = left.leaves.union(right.leaves) else {
            return Ok(());
        };
        let Some(at) = self.place_for(start, leaves) else {
            return Ok(());
        };
        let table = left.table_over(leaves) & right.table_over(leaves);
        if at < self.cuts.len() {
            self.cuts[at] = Cut { leaves, table };
        } else {
            self.cuts.push(Cut { leaves, table })?;
        }
        Ok(())
    }

    /// Where a cut over these leaves is put, for the node whose cuts begin at a place: behind the others, or,
    /// where there are too many, in place of that with the lowest leaf. None where it stands already or would
    /// itself be that one.
    fn place_for(&self, start: usize, leaves: Leaves) -> Option<usize> {
        let full = self.cuts.len().saturating_sub(start) >= MOST_CUTS;
        let mut lowest = leaves.first;
        let mut place = None;
        for at in start..self.cuts.len() {
            let other = self.cuts[at].leaves;
            if other == leaves {
                return None;
            }
            if full && other.first < lowest {
                lowest = other.first;
                place = Some(at);
            }
        }
        if full { place } else { Some(self.cuts.len()) }
    }
}
