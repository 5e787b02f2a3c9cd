//! Conjunctions that need no node: of a constant, of one literal twice, and of a literal and its opposite.
ghost use Rattle.std.specs.Prelude.{ℕ, ◌<◌, ◌≤◌, ◌/◌, ◌*◌, MatchOption};
ghost use Rattle.aig_core.specs.Graph.{GraphValue, IsLiteralOf};
ghost use Rattle.aig_core.specs.Grown.{IsConjunctionOf};

use crate::literal::{Literal, node_of};

/// The conjunction of two literals, the lesser one first, where it is a constant or one of the two. Where it
/// is neither, the literals are of two different nodes, the lesser one first, and neither node is the
/// constant.
pub fn folded(low: Literal, high: Literal) -> Option<Literal>
    requires { low ≤ high }
    ensures { MatchOption result ((0 < low / 2) × (low / 2 < high / 2))
        (λ r. (g : GraphValue) → IsLiteralOf g high → IsConjunctionOf g low high r) }
{
    if low == 0 {
        Some(0)
    } else if low == 1 {
        Some(high)
    } else if low == high {
        Some(low)
    } else if node_of(low) == node_of(high) {
        Some(0)
    } else {
        None
    }
}
