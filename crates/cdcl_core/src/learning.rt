//! What the search learns of a conflict, and how its log shows it.
//!
//! Each step has the next id, and its hints are the clauses that were resolved. So a checker follows the log
//! by unit propagation along the hints and searches nothing. Source: LRAT.
ghost use Rattle.std.specs.Prelude.{◌≡◌, ◌<◌, [], length, OnOk, OnErr};
ghost use Rattle.cdcl_core.specs.Propagation.{IsConflict};
ghost use Rattle.cdcl_core.specs.Searched.{IsSearching, HasEnded, HasLearned, IsUnchanged};
ghost use Rattle.cdcl_core.specs.Watching.{IsWatching, IsWatchedBelow};

use crate::analysis::{bring_forward, learn, make_room};
use crate::clause_list::count;
use crate::jump::jump;
use crate::refutation::refute;
use crate::search::SolverState;
use std::alloc::{AllocError, Global};

/// Ends the log with the empty clause, where a clause is false without a decision.
pub fn log_refutation(
    alloc: Global,
    search: &mut SolverState,
    conflict: usize,
) -> Result<(), AllocError>
    requires searching { IsSearching search.old.clauses.list search.old.trail search.old.order }
    requires conflict { IsConflict search.old.clauses.list search.old.trail conflict }
    requires no_level { search.old.trail.starts ≡ [] }
    ensures ended { OnOk result (HasEnded search.old.clauses.list search.old.log.items search.new.log.items) }
    ensures trail { search.new.trail ≡ search.old.trail }
    ensures err { OnErr result (IsUnchanged search.old search.new) }
{
    search.trail.consistent();
    search.log.pack(alloc)?;
    make_room(
        search.trail.len(),
        &mut search.clauses,
        &mut search.order,
        &mut search.marks,
        &mut search.implied,
        &mut search.learned,
    )?;
    refute(
        &search.trail,
        &search.clauses,
        &mut search.marks,
        &mut search.learned,
        conflict,
    );
    search.learned.clause.clear();
    search
        .log
        .hold(count(&search.clauses) + 1, &mut search.learned);
    Ok(())
}

/// Learns a clause from a conflict, logs it, and goes back to the level where the clause forces a literal.
/// Returns the number of levels of the clause's literals.
pub fn learn_from(
    alloc: Global,
    search: &mut SolverState,
    conflict: usize,
) -> Result<u64, AllocError>
    requires searching { IsSearching search.old.clauses.list search.old.trail search.old.order }
    requires conflict { IsConflict search.old.clauses.list search.old.trail conflict }
    requires levels { 0 < length search.old.trail.starts }
    requires watched { IsWatchedBelow search.old.clauses.list search.old.trail search.old.watches }
    ensures watching { OnOk result (IsWatching search.new.clauses.list search.new.trail search.new.watches) }
    ensures searching { OnOk result (IsSearching search.new.clauses.list search.new.trail search.new.order) }
    ensures variables { OnOk result (search.new.trail.variables ≡ search.old.trail.variables) }
    ensures logged { OnOk result (HasLearned search.old search.new) }
    ensures err { OnErr result (IsUnchanged search.old search.new) }
{
    search.trail.consistent();
    search.log.pack(alloc)?;
    make_room(
        search.trail.len(),
        &mut search.clauses,
        &mut search.order,
        &mut search.marks,
        &mut search.implied,
        &mut search.learned,
    )?;
    let id = count(&search.clauses) + 1;
    learn(
        &search.trail,
        &search.clauses,
        &mut search.marks,
        &mut search.implied,
        &mut search.learned,
        conflict,
    );
    bring_forward(
        &search.trail,
        &search.clauses,
        &search.marks,
        &search.learned.hints,
        &mut search.order,
    );
    jump(
        &mut search.trail,
        &mut search.watches,
        &mut search.order,
        &mut search.clauses,
        &search.learned.clause,
        search.learned.place,
    )?;
    search.log.hold(id, &mut search.learned);
    Ok(search.learned.levels)
}
