//! The rows of inputs and of gates, one after another.
ghost use Rattle.std.specs.Prelude.{◌≡◌, ◌+◌, ◌*◌, ◌≤◌, List, Bool, length};
ghost use Rattle.lane_bits.specs.Rows.{word_count};
ghost use Rattle.aig_core.specs.Graph.{GraphValue, IsGraph, gate_node, node_count};
ghost use Rattle.sim_core.specs.Simulation.{HaveValues};

use crate::row_blocks::{set_conjunction, set_row, side_of};
use aig_core::graph::Aig;
use lane_bits::kernels::word_count;
use lane_bits::patterns::Patterns;

/// Sets the rows of the constant and of the inputs.
pub(crate) fn set_inputs(rows: &mut [u64], patterns: &Patterns)
    requires { (1 + patterns.now.inputs) * word_count (length patterns.now.vectors) ≤ length rows.old }
    ensures { (g : GraphValue) → IsGraph g → g.inputs ≡ patterns.now.inputs
        → HaveValues g patterns.now.vectors rows.new (gate_node g 0) }
{
    let words = word_count(patterns.count()) as usize;
    rows[..words].fill(0);
    for i in 0..patterns.inputs() {
        set_row(rows, (1 + i as usize) * words, patterns.row(i));
    }
}

/// Sets the rows of the gates.
pub(crate) fn set_gates(rows: &mut [u64], count: u64, aig: &Aig)
    requires { length rows.old ≡ node_count aig.now * word_count count }
    ensures { (vectors : List (List Bool)) → length vectors ≡ count
        → HaveValues aig.now vectors rows.old (gate_node aig.now 0)
        → HaveValues aig.now vectors rows.new (node_count aig.now) }
{
    let words = word_count(count) as usize;
    let first = 1 + aig.inputs() as usize;
    for (i, gate) in aig.gates().iter().enumerate() {
        let left = side_of(rows, words, gate.left);
        let right = side_of(rows, words, gate.right);
        set_conjunction(rows, (first + i) * words, words, count, left, right);
    }
}
