//! Going back after a conflict.
//!
//! The search goes back to the greatest level among the other literals of the learned clause. There these are
//! all false, and the clause's literal of the conflict's level follows. No level between is worth keeping:
//! the clause would force that literal already there. Source: the jump of GRASP and Chaff.
ghost use Rattle.std.specs.Prelude.{◌≡◌, ◌⊎◌, ◌<◌, ◌^◌, [], ◌∷◌, ◌++◌, length, neg_ℤ, All, OnOk, OnErr};
ghost use Rattle.proof_semantics.specs.Clauses.{IsLiteralOf};
ghost use Rattle.cdcl_core.specs.Trail.{literal_at, IsTrueBelow, IsLearned, AreLevels};
ghost use Rattle.cdcl_core.specs.Watching.{IsWatching, IsWatchedBelow};
ghost use Rattle.cdcl_core.specs.Placed.{last_start};
ghost use Rattle.cdcl_core.specs.Region.{HasPlace};
ghost use Rattle.cdcl_core.specs.Searched.{IsSearching, HasMoved};
ghost use Rattle.cdcl_core.specs.Jump.{IsRunning, IsJump, IsJumpPair, IsLastOther, later_of};

use crate::clause::is_binary;
use crate::clause_list::ClauseList;
use crate::decision_order::Order;
use crate::literal::Literal;
use crate::search::SolverState;
use crate::trail::Trail;
use crate::watches::Watches;
use std::alloc::AllocError;

fn later(last: Option<usize>, place: usize) -> usize
    ensures { result ≡ later_of last place }
{
    match last {
        None => place,
        Some(other) => { if other < place { place } else { other } }
    }
}

/// The last entry by which a literal other than `own` is false.
fn last_other(trail: &Trail, clause: &[Literal], own: Literal, start: usize) -> Option<usize>
    requires { All (λ a. (a ≡ own) ⊎ IsTrueBelow trail.now.literals start (neg_ℤ a)) clause.now }
    ensures { IsLastOther trail.now.literals start own clause.now clause.now result }
{
    trail.consistent();
    let mut last: Option<usize> = None;
    for literal in clause {
        if !literal.is(own) {
            last = Some(later(last, trail.place(*literal)));
        }
    }
    last
}

/// The number of levels that stay, and the literal that is watched besides the literal that follows.
#[derive(Drop)]
struct Target {
    level: usize,
    other: Literal,
}

/// Where a learned clause leads; `own` is its literal of the last level.
fn jump_target(trail: &Trail, clause: &[Literal], own: Literal) -> Target
    requires levels { 0 < length trail.now.starts }
    requires rising { AreLevels trail.now.literals trail.now.starts }
    requires others { All (λ a. (a ≡ own) ⊎ IsTrueBelow trail.now.literals (last_start trail.now) (neg_ℤ a))
        clause.now }
    ensures jump { IsJump trail.now (last_start trail.now) clause.now own result.level }
    ensures pair { IsJumpPair trail.now (last_start trail.now) clause.now own result.level result.other }
{
    let start = trail.start(trail.levels() - 1);
    match last_other(trail, clause, own, start) {
        None => Target {
            level: 0,
            other: own,
        },
        Some(last) => Target {
            level: trail.levels_until(last),
            other: trail.literal(last).negated(),
        },
    }
}

/// Notes that the variables of the entries from a place on are to have no value any more.
fn open_from(order: &mut Order, trail: &Trail, from: usize)
    requires { order.old ≡ trail.now.variables }
    ensures { order.new ≡ order.old }
{
    trail.consistent();
    for i in from..trail.len() {
        order.open(trail.literal(i));
    }
}

/// Notes that no variable has a value any more, where the order is one of the trail's variables.
pub fn reopen(order: &mut Order, trail: &Trail)
    requires { trail.now.variables < 2 ^ 31 }
    ensures { order.new ≡ order.old }
{
    if order.variables() == trail.variables() as usize {
        open_from(order, trail, 0);
        order.rewind();
    }
}

/// Adds a learned clause, whose literal of the last level stands at `place` and for which there is room;
/// closes the levels of which none of its other literals is; and adds the literal that follows. Only the
/// watches take memory, before anything changes.
pub fn jump(
    trail: &mut Trail,
    watches: &mut Watches,
    order: &mut Order,
    clauses: &mut ClauseList,
    clause: &[Literal],
    place: usize,
) -> Result<(), AllocError>
    requires running { IsRunning clauses.old.list trail.old }
    requires watched { IsWatchedBelow clauses.old.list trail.old watches.old }
    requires order { order.old ≡ trail.old.variables }
    requires levels { 0 < length trail.old.starts }
    requires literals { All (IsLiteralOf trail.old.variables) clause.now }
    requires room { HasPlace (length clause.now) clauses.old }
    requires learned { IsLearned trail.old.literals (last_start trail.old) clause.now
        (neg_ℤ (literal_at trail.old.literals place)) place }
    ensures running { OnOk result (IsRunning clauses.new.list trail.new) }
    ensures watching { OnOk result (IsWatching clauses.new.list trail.new watches.new) }
    ensures added { OnOk result (clauses.new.list ≡ clauses.old.list ++ clause.now ∷ []) }
    ensures variables { OnOk result (trail.new.variables ≡ trail.old.variables) }
    ensures order { order.new ≡ order.old }
    ensures err { OnErr result
        ((clauses.new ≡ clauses.old) × (trail.new ≡ trail.old) × (watches.new ≡ watches.old)) }
{
    trail.consistent();
    let own = trail.literal(place).negated();
    let Target { level, other } = jump_target(trail, clause, own);
    let reason = clauses.len();
    let binary = is_binary(clause, own, other);
    watches.add(own, other, binary)?;
    clauses.push_reserved(clause);
    let start = trail.start(level);
    open_from(order, trail, start);
    watches.set_handled(start);
    trail.close(level);
    trail.push_implied(own, reason);
    Ok(())
}

/// Closes every level, if `due`: the search goes back to its start.
pub fn close_levels(search: &mut SolverState, due: bool)
    requires searching { IsSearching search.old.clauses.list search.old.trail search.old.order }
    requires watching { IsWatching search.old.clauses.list search.old.trail search.old.watches }
    ensures moved { HasMoved search.old search.new }
    ensures watching { IsWatching search.new.clauses.list search.new.trail search.new.watches }
{
    if !due {
        return;
    }
    if search.trail.levels() == 0 {
        return;
    }
    let start = search.trail.start(0);
    open_from(&mut search.order, &search.trail, start);
    search.watches.set_handled(start);
    search.trail.close(0);
}
