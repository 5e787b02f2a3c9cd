//! The watches of the clauses that a search begins with.
//!
//! Before an entry of the trail is handled, any two different literals of a clause may be watched, also false
//! ones. Of a clause that has no other literal, or whose other literals are false, the first literal is made
//! true here.
ghost use Rattle.std.specs.Prelude.{◌≡◌, ◌<◌, [], length, MatchOption, IfOk, OnOk};
ghost use Rattle.proof_semantics.specs.Clauses.{AreClausesOf};
ghost use Rattle.cdcl_core.specs.Propagation.{IsExtended, IsConflict};
ghost use Rattle.cdcl_core.specs.Watches.{no_watches};
ghost use Rattle.cdcl_core.specs.Watching.{IsWatching};
ghost use Rattle.cdcl_core.specs.Started.{IsStarting, IsStarted};

use crate::clause::is_binary;
use crate::clause_list::ClauseList;
use crate::trail::Trail;
use crate::visit::other_watch;
use crate::watches::Watches;
use std::alloc::AllocError;

/// Watches the clause at `place`, unless it is false.
fn watch_clause(
    trail: &mut Trail,
    watches: &mut Watches,
    clauses: &ClauseList,
    place: usize,
) -> Result<bool, AllocError>
    requires literals { AreClausesOf trail.old.variables clauses.now.list }
    requires place { place < length clauses.now.list }
    requires starting { IsStarting clauses.now.list place trail.old watches.old }
    ensures started { IfOk result (IsStarted clauses.now.list place trail.new watches.new) }
    ensures extended { OnOk result (IsExtended clauses.now.list trail.old trail.new) }
{
    let clause = clauses.get(place);
    if clause.len() == 0 {
        return Ok(false);
    }
    let first = clause[0];
    if let Some(other) = other_watch(trail, clause, first) {
        let binary = is_binary(clause, first, other);
        watches.add(first, other, binary)?;
        return Ok(true);
    }
    if trail.is_false(first) {
        return Ok(false);
    }
    watches.add(first, first, false)?;
    if trail.is_true(first) {
        return Ok(true);
    }
    trail.push_implied(first, place);
    Ok(true)
}

/// Watches the clauses, and returns a clause that is false without a decision, if there is one.
pub fn watch_all(
    trail: &mut Trail,
    watches: &mut Watches,
    clauses: &ClauseList,
) -> Result<Option<usize>, AllocError>
    requires literals { AreClausesOf trail.old.variables clauses.now.list }
    requires starts { trail.old.starts ≡ [] }
    requires watches { watches.old ≡ no_watches trail.old.variables }
    ensures extended { OnOk result (IsExtended clauses.now.list trail.old trail.new) }
    ensures found { IfOk result (λ found. MatchOption found
        (IsWatching clauses.now.list trail.new watches.new) (IsConflict clauses.now.list trail.new)) }
{
    for place in 0..clauses.len() {
        if !watch_clause(trail, watches, clauses, place)? {
            return Ok(Some(place));
        }
    }
    Ok(None)
}
