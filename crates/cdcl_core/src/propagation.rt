//! Propagation by watched literals: each entry of the trail is handled once, by a visit of the clauses that
//! watch the literal that the entry makes false. When all entries are handled, every clause is settled, or
//! one is false. Source: Chaff and MiniSat.
ghost use Rattle.std.specs.Prelude.{◌≡◌, IfOk, OnOk};
ghost use Rattle.proof_semantics.specs.Clauses.{IsLiteralOf};
ghost use Rattle.cdcl_core.specs.Propagation.{IsExtended};
ghost use Rattle.cdcl_core.specs.Watching.{IsWatching, IsHandling};
ghost use Rattle.cdcl_core.specs.Visited.{IsHandled, IsComplete};

use crate::clause_list::ClauseList;
use crate::literal::Literal;
use crate::trail::Trail;
use crate::visit::{Visit, visit_watcher};
use crate::watches::Watches;
use std::alloc::AllocError;

/// Visits the clauses that watch the literal that the next entry makes false, and returns a clause that is
/// false, if there is one.
fn handle(
    trail: &mut Trail,
    watches: &mut Watches,
    clauses: &ClauseList,
    x: Literal,
) -> Result<Option<usize>, AllocError>
    requires handling { IsHandling clauses.now.list trail.old watches.old x 0 }
    requires literal { IsLiteralOf trail.old.variables x }
    ensures found { IfOk result (IsHandled clauses.now.list trail.new watches.new) }
    ensures extended { OnOk result (IsExtended clauses.now.list trail.old trail.new) }
    ensures handled { OnOk result (watches.new.handled ≡ watches.old.handled) }
{
    let mut at = 0;
    'along: while at < watches.count(x) {
        match visit_watcher(trail, watches, clauses, x, at)? {
            Visit::Next => {
                at += 1;
            }
            Visit::Again => {}
            Visit::Conflict(clause) => return Ok(Some(clause)),
        }
    }
    Ok(None)
}

/// The clause that is false, or None where every clause is settled.
pub fn propagate(
    trail: &mut Trail,
    watches: &mut Watches,
    clauses: &ClauseList,
) -> Result<Option<usize>, AllocError>
    requires { IsWatching clauses.now.list trail.old watches.old }
    ensures extended { OnOk result (IsExtended clauses.now.list trail.old trail.new) }
    ensures complete { IfOk result (IsComplete clauses.now.list trail.new watches.new) }
{
    'entries: while watches.handled() < trail.len() {
        trail.consistent();
        let entry = watches.handled();
        let x = trail.literal(entry).negated();
        if let Some(clause) = handle(trail, watches, clauses, x)? {
            return Ok(Some(clause));
        }
        watches.set_handled(entry + 1);
    }
    Ok(None)
}
