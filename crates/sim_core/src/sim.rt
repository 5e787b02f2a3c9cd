//! The simulation of a graph at many patterns at once.
ghost use Rattle.std.specs.Prelude.{◌≡◌, ◌*◌, ◌<◌, List, Bool, length, IfOk};
ghost use Rattle.lane_bits.specs.Rows.{word_count};
ghost use Rattle.aig_core.specs.Graph.{GraphValue, truth_of};
ghost use Rattle.sim_core.specs.Simulation.{IsForGraph, IsSimulationOf, IsRowOfValues};

use crate::row_blocks::side_of;
use crate::row_steps::{set_gates, set_inputs};
use aig_core::graph::Aig;
use aig_core::literal::Literal;
use lane_bits::kernels::{and_rows, clear_past, word_count};
use lane_bits::patterns::Patterns;
use std::alloc::{AllocError, Global};
use std::marker::Model;

/// A row of bits for each node, one bit for each pattern; the rows stand one behind another.
#[derive(Drop)]
pub struct Sim {
    nodes: u32,
    count: u64,
    rows: Vec<u64>,
}

impl Model for Sim {
    ghost use Rattle.std.specs.Prelude.{◌≡◌, ◌*◌, length};
    ghost use Rattle.lane_bits.specs.Rows.{word_count};
    ghost use Rattle.sim_core.specs.Simulation.{SimValue};

    ghost Value = { SimValue };

    ghost view = { λ s. record { nodes = s.nodes; count = s.count; rows = s.rows.items } };

    ghost invariant = { λ s. length s.rows.items ≡ s.nodes * word_count s.count };
}

impl Sim {
    /// Room for the rows of a graph at these patterns.
    pub fn reserve(alloc: Global, aig: &Aig, patterns: &Patterns) -> Result<Sim, AllocError>
        ensures { IfOk result (IsForGraph aig.now patterns.now.vectors) }
    {
        let count = patterns.count();
        let words = word_count(count) as usize;
        let size = (aig.nodes() as usize).checked_mul(words).ok_or(AllocError)?;
        Ok(Sim {
            nodes: aig.nodes(),
            count,
            rows: vec![in alloc; 0; size]?,
        })
    }

    /// Computes the values of the nodes at all patterns. The call takes no memory.
    pub fn run(&mut self, aig: &Aig, patterns: &Patterns)
        requires inputs { patterns.now.inputs ≡ aig.now.inputs }
        requires room { IsForGraph aig.now patterns.now.vectors self.old }
        ensures { IsSimulationOf aig.now patterns.now.vectors self.new }
    {
        aig.is_graph();
        let rows = self.rows.as_mut_slice();
        set_inputs(rows, patterns);
        set_gates(rows, self.count, aig);
    }

    /// Sets `dst` to the row of a literal: bit p is the literal's value at pattern p, and the bits past the
    /// last pattern are 0.
    pub fn row(&self, literal: Literal, dst: &mut [u64])
        requires literal { literal < 2 * self.now.nodes }
        requires room { length dst.old ≡ word_count self.now.count }
        ensures { (g : GraphValue) (vectors : List (List Bool)) → IsSimulationOf g vectors self.now
            → IsRowOfValues vectors (λ x. truth_of g x literal) dst.new }
    {
        let rows = self.rows.as_slice();
        let from = side_of(rows, dst.len(), literal);
        let row = &rows[from.start..from.start + dst.len()];
        and_rows(dst, row, from.flip, row, from.flip);
        clear_past(dst, self.count);
    }
}
