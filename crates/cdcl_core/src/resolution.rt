//! Resolution over the marked entries: each step replaces an entry by the entries that forced it, and gives a
//! hint.
ghost use Rattle.std.specs.Prelude.{◌≡◌, ◌≢◌, ◌⊎◌, ℕ, suc, ◌+◌, ◌<◌, ◌≤◌, true, [], ◌∷◌, length, vec_len};
ghost use Rattle.std.specs.Prelude.{vec_capacity, neg_ℤ, All, reverse};
ghost use Rattle.cdcl_core.specs.Settled.{IsSettled};
ghost use Rattle.cdcl_core.specs.Trail.{IsTrueBelow, IsReason};
ghost use Rattle.cdcl_core.specs.Explained.{IsExplained};
ghost use Rattle.cdcl_core.specs.Propagation.{IsConflict};
ghost use Rattle.cdcl_core.specs.Analysis.{mark_at, IsMarkedFrom, AreOthersMarked};

use crate::clause_list::{ClauseList, id_of};
use crate::literal::Literal;
use crate::trail::Trail;
use crate::trail_marks::Marks;

/// Marks the entries before `bound` that make the literals of a clause false, but for one literal.
fn mark_others(trail: &Trail, marks: &mut Marks, clause: &[Literal], own: Literal, bound: usize)
    requires marks { length trail.now.literals ≤ length marks.old }
    requires others { All (λ a. (a ≡ own) ⊎ IsTrueBelow trail.now.literals bound (neg_ℤ a)) clause.now }
    ensures { AreOthersMarked trail.now.literals marks.old marks.new
        (record { clause = clause.now; own = own; bound = bound }) }
{
    trail.consistent();
    for literal in clause {
        if !literal.is(own) {
            marks.set(trail.place(*literal));
        }
    }
}

/// Marks the entries that make the conflict's clause false.
pub fn mark_conflict(trail: &Trail, clauses: &ClauseList, marks: &mut Marks, conflict: usize)
    requires marks { length trail.now.literals ≤ length marks.old }
    requires conflict { IsConflict clauses.now.list trail.now conflict }
    ensures explained { IsExplained clauses.now.list trail.now.literals marks.new (suc conflict ∷ []) }
    ensures reaches { (start : ℕ) → IsSettled (IsTrueBelow trail.now.literals start) clauses.now.list
        → IsMarkedFrom marks.new start (length trail.now.literals) }
    ensures same { length marks.new ≡ length marks.old }
{
    trail.consistent();
    let clause = clauses.get(conflict);
    if trail.len() == 0 {
        return;
    }
    let true_one = trail.literal(0);
    mark_others(trail, marks, clause, true_one, trail.len());
}

/// Replaces a marked entry by the entries of the other literals of its reason. The reason becomes a hint, for
/// which there is room.
pub fn resolve(
    trail: &Trail,
    clauses: &ClauseList,
    marks: &mut Marks,
    hints: &mut Vec<u64>,
    entry: usize,
    reason: usize,
)
    requires marks { length trail.now.literals ≤ length marks.old }
    requires entry { entry < length trail.now.literals }
    requires reason { IsReason clauses.now.list trail.now.literals entry reason }
    requires room { vec_len hints.old < vec_capacity hints.old }
    ensures explained { IsExplained clauses.now.list trail.now.literals marks.old (reverse hints.old.items)
        → IsExplained clauses.now.list trail.now.literals marks.new (reverse hints.new.items) }
    ensures same { length marks.new ≡ length marks.old }
    ensures kept { (p : ℕ) → p ≢ entry → mark_at marks.old p ≡ true → mark_at marks.new p ≡ true }
    ensures below { (p : ℕ) → entry ≤ p → mark_at marks.new p ≡ true
        → (p ≢ entry) × (mark_at marks.old p ≡ true) }
    ensures one { vec_len hints.new ≡ vec_len hints.old + 1 }
    ensures room { vec_capacity hints.new ≡ vec_capacity hints.old }
{
    trail.consistent();
    marks.unset(entry);
    let clause = clauses.get(reason);
    mark_others(trail, marks, clause, trail.literal(entry), entry);
    hints.push_reserved(id_of(clauses, reason));
}
