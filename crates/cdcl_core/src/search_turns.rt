//! The turns of the search: what finds the next conflict, and what follows it. First the sweep finds
//! conflicts, and when it is over, the search.
ghost use Rattle.std.specs.Prelude.{◌≡◌, ℕ, List, MatchOption, IfOk, OnOk};
ghost use Rattle.proof_semantics.specs.Formula.{Formula};
ghost use Rattle.proof_semantics.specs.Logs.{LogItem};
ghost use Rattle.cdcl_core.specs.Propagation.{IsConflict};
ghost use Rattle.cdcl_core.specs.Watching.{IsWatching, IsWatchedBelow};
ghost use Rattle.cdcl_core.specs.Searched.{IsSearch, IsSearching, IsModelTrail, IsSwept, HasMoved};
ghost use Rattle.cdcl_core.specs.Turned.{IsReady, IsTurn};

use crate::clause_list::ClauseList;
use crate::decision_order::Order;
use crate::guide::Guide;
use crate::jump::close_levels;
use crate::learning::{learn_from, log_refutation};
use crate::pace::Pace;
use crate::propagation::propagate;
use crate::search::{SolverState, next_conflict};
use crate::sweep::Sweep;
use crate::trail::Trail;
use crate::watches::Watches;
use std::alloc::{AllocError, Global};

/// What a turn shows.
#[derive(Drop)]
pub enum Turn {
    /// A clause was learned, and the search goes on.
    Further,
    /// The log refutes the formula.
    Refuted,
    /// Each variable has a value.
    Full,
}

/// Decides what the sweep asks for, each time after complete propagation, until a clause is false or the step
/// of the sweep is over.
fn step_conflict(
    trail: &mut Trail,
    watches: &mut Watches,
    clauses: &ClauseList,
    order: &Order,
    sweep: &Sweep,
    guide: &Guide,
) -> Result<Option<usize>, AllocError>
    requires searching { IsSearching clauses.now.list trail.old order.now }
    requires watching { IsWatching clauses.now.list trail.old watches.old }
    ensures searching { IfOk result (λ _. IsSearching clauses.now.list trail.new order.now) }
    ensures found { IfOk result (IsSwept clauses.now.list trail.new watches.new) }
{
    loop {
        trail.consistent();
        if let Some(conflict) = propagate(trail, watches, clauses)? {
            return Ok(Some(conflict));
        }
        match sweep.decide(trail, order, guide) {
            None => return Ok(None),
            Some(literal) => trail.push_decision(literal)?,
        }
    }
}

/// Goes on with the sweep until a clause is false, or the sweep is over.
fn swept_conflict(
    search: &mut SolverState,
    sweep: &mut Sweep,
    guide: &Guide,
) -> Result<Option<usize>, AllocError>
    requires searching { IsSearching search.old.clauses.list search.old.trail search.old.order }
    requires watching { IsWatching search.old.clauses.list search.old.trail search.old.watches }
    ensures moved { OnOk result (HasMoved search.old search.new) }
    ensures found { IfOk result (IsSwept search.new.clauses.list search.new.trail search.new.watches) }
{
    for _step in 0..sweep.steps(guide) {
        if !sweep.is_on(guide) {
            return Ok(None);
        }
        let found = step_conflict(
            &mut search.trail,
            &mut search.watches,
            &search.clauses,
            &search.order,
            sweep,
            guide,
        )?;
        if let Some(conflict) = found {
            return Ok(Some(conflict));
        }
        let ruled_out = sweep.is_ruled_out(&search.trail, guide);
        close_levels(search, true);
        sweep.go_on(guide, ruled_out)?;
    }
    Ok(None)
}

/// The next clause that is false, or None where each variable has a value. The least open variable up to
/// `inputs` is decided first.
fn find_conflict(
    search: &mut SolverState,
    sweep: &mut Sweep,
    guide: &Guide,
    inputs: u32,
) -> Result<Option<usize>, AllocError>
    requires searching { IsSearching search.old.clauses.list search.old.trail search.old.order }
    requires watching { IsWatching search.old.clauses.list search.old.trail search.old.watches }
    ensures moved { OnOk result (HasMoved search.old search.new) }
    ensures searching { OnOk result (IsSearching search.new.clauses.list search.new.trail search.new.order) }
    ensures watched { OnOk result
        (IsWatchedBelow search.new.clauses.list search.new.trail search.new.watches) }
    ensures found { IfOk result (λ found. MatchOption found
        (IsModelTrail search.new.clauses.list search.new.trail)
        (IsConflict search.new.clauses.list search.new.trail)) }
{
    let swept = swept_conflict(search, sweep, guide)?;
    if let Some(conflict) = swept {
        return Ok(Some(conflict));
    }
    let found = next_conflict(
        &mut search.trail,
        &mut search.watches,
        &search.clauses,
        &mut search.order,
        inputs,
    )?;
    Ok(found)
}

/// Notes a conflict and the number of levels of its clause, and returns whether every level is closed now.
fn is_back_due(
    sweep: &mut Sweep,
    pace: &mut Pace,
    guide: &Guide,
    levels: u64,
) -> Result<bool, AllocError> {
    pace.list(levels)?;
    if sweep.is_on(guide) {
        return sweep.count(guide);
    }
    pace.note(levels);
    let waited = sweep.count(guide)?;
    Ok(waited || pace.restarts())
}

/// Does what follows a conflict of which a clause of `levels` levels was learned.
fn follow(
    search: &mut SolverState,
    sweep: &mut Sweep,
    pace: &mut Pace,
    guide: &Guide,
    levels: u64,
) -> Result<(), AllocError>
    requires searching { IsSearching search.old.clauses.list search.old.trail search.old.order }
    requires watching { IsWatching search.old.clauses.list search.old.trail search.old.watches }
    ensures moved { OnOk result (HasMoved search.old search.new) }
    ensures watching { OnOk result (IsWatching search.new.clauses.list search.new.trail search.new.watches) }
{
    let due = is_back_due(sweep, pace, guide, levels)?;
    close_levels(search, due);
    Ok(())
}

/// Searches for the next conflict, and learns a clause from it.
pub fn take_turn(
    alloc: Global,
    search: &mut SolverState,
    sweep: &mut Sweep,
    pace: &mut Pace,
    guide: &Guide,
) -> Result<Turn, AllocError>
    requires searching { IsSearching search.old.clauses.list search.old.trail search.old.order }
    requires watching { IsWatching search.old.clauses.list search.old.trail search.old.watches }
    ensures ready { IfOk result (IsReady search.new) }
    ensures variables { OnOk result (search.new.trail.variables ≡ search.old.trail.variables) }
    ensures shown { IfOk result
        (λ turn. (f : Formula) (merged : List LogItem) (k : ℕ) → IsSearch f merged k search.old
        → IsTurn f merged k search.new turn) }
{
    let inputs = pace.inputs_first();
    let found = find_conflict(search, sweep, guide, inputs)?;
    let Some(conflict) = found else {
        return Ok(Turn::Full);
    };
    if search.trail.levels() == 0 {
        log_refutation(alloc, search, conflict)?;
        return Ok(Turn::Refuted);
    }
    let levels = learn_from(alloc, search, conflict)?;
    follow(search, sweep, pace, guide, levels)?;
    Ok(Turn::Further)
}
