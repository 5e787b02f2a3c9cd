//! The empty clause. A conflict without a decision needs no learned clause: every entry follows from the
//! clauses alone, so each marked entry is resolved, and none is left.
ghost use Rattle.std.specs.Prelude.{◌≡◌, ℕ, ◌<◌, ◌≤◌, ◌+◌, false, [], length, vec_len, vec_capacity, reverse};
ghost use Rattle.cdcl_core.specs.Trail.{IsTrail};
ghost use Rattle.cdcl_core.specs.Explained.{IsExplained};
ghost use Rattle.cdcl_core.specs.Propagation.{IsConflict};
ghost use Rattle.cdcl_core.specs.Analysis.{mark_at};
ghost use Rattle.cdcl_core.specs.Analysed.{HasRoom};
ghost use Rattle.cdcl_core.specs.Refuted.{IsRefuted};

use crate::analysis::Learned;
use crate::clause_list::{ClauseList, id_of};
use crate::resolution::{mark_conflict, resolve};
use crate::trail::Trail;
use crate::trail_marks::Marks;

/// Resolves every marked entry, where there is no decision. There is room for one hint for each entry.
fn resolve_all(trail: &Trail, clauses: &ClauseList, marks: &mut Marks, hints: &mut Vec<u64>)
    requires marks { length trail.now.literals ≤ length marks.old }
    requires room { vec_len hints.old + length trail.now.literals ≤ vec_capacity hints.old }
    requires trail { IsTrail clauses.now.list trail.now.literals trail.now.reasons [] }
    requires explained { IsExplained clauses.now.list trail.now.literals marks.old (reverse hints.old.items) }
    ensures explained { IsExplained clauses.now.list trail.now.literals marks.new (reverse hints.new.items) }
    ensures none { (p : ℕ) → p < length trail.now.literals → mark_at marks.new p ≡ false }
{
    let mut top = trail.len();
    'down: while let Some(next) = marks.find_highest(0, top) {
        match trail.reason(next) {
            Some(reason) => {
                resolve(trail, clauses, marks, hints, next, reason);
            }
            None => unreachable!(),
        }
        top = next;
    }
}

/// The hints of the empty clause, where a clause is false without a decision. There is room.
pub fn refute(
    trail: &Trail,
    clauses: &ClauseList,
    marks: &mut Marks,
    learned: &mut Learned,
    conflict: usize,
)
    requires trail { IsTrail clauses.now.list trail.now.literals trail.now.reasons [] }
    requires conflict { IsConflict clauses.now.list trail.now conflict }
    requires room { HasRoom (length trail.now.literals) marks.old (vec_capacity learned.old.clause)
        (vec_capacity learned.old.hints) }
    ensures { IsRefuted clauses.now.list (reverse learned.new.hints.items) }
{
    mark_conflict(trail, clauses, marks, conflict);
    learned.hints.clear();
    learned.hints.push_reserved(id_of(clauses, conflict));
    resolve_all(trail, clauses, marks, &mut learned.hints);
}
