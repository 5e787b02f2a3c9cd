//! A visit of a clause that watches a literal which became false. It finds that the clause is true, or
//! another of its literals is watched, or the other watched literal follows, or the clause is false. The
//! blocker may show that the clause is true before the clause is looked at, and the watcher of a clause of
//! two literals tells the whole clause. Source: Chaff; the blockers are MiniSat's, and the watchers of two
//! literals those of Glucose.
ghost use Rattle.std.specs.Prelude.{◌≡◌, ◌<◌, false, length, All, IfOk, OnOk, IfSome, IsNone};
ghost use Rattle.proof_semantics.specs.Clauses.{IsLiteralOf};
ghost use Rattle.cdcl_core.specs.Explained.{Holds};
ghost use Rattle.cdcl_core.specs.Propagation.{IsExtended};
ghost use Rattle.cdcl_core.specs.Watches.{list_at, watch_at, pair_at};
ghost use Rattle.cdcl_core.specs.Watching.{IsOneOf, IsHandling};
ghost use Rattle.cdcl_core.specs.Visited.{IsPartner, IsOtherWatch, AreOthersFalse, IsFollowed, IsVisited};

use crate::clause_list::ClauseList;
use crate::literal::Literal;
use crate::trail::Trail;
use crate::watches::{Pair, Watch, Watches};
use std::alloc::AllocError;

/// What became of a watcher.
#[derive(Drop)]
pub enum Visit {
    /// The watcher stays.
    Next,
    /// The watcher was taken out, and another one stands in its place.
    Again,
    /// The watcher's clause is false.
    Conflict(usize),
}

/// A literal that may be watched, and its place, on which no statement depends.
#[derive(Clone, Copy, Drop)]
struct Free {
    literal: Literal,
    place: usize,
}

/// The first of these literals that is not false, other than `first`, and its place among them.
fn free_literal(trail: &Trail, literals: &[Literal], first: Literal) -> Option<Free>
    requires { All (IsLiteralOf trail.now.variables) literals.now }
    ensures some { IfSome result (λ free. IsOtherWatch trail.now.literals literals.now first free.literal) }
    ensures none { IsNone result → AreOthersFalse trail.now.literals literals.now first }
{
    let mut place: usize = 0;
    for literal in literals {
        if !literal.is(first) && !trail.is_false(*literal) {
            return Some(Free {
                literal: *literal,
                place,
            });
        }
        place = place.wrapping_add(1);
    }
    None
}

/// A literal of the clause that is not false, other than `first`.
pub fn other_watch(trail: &Trail, clause: &[Literal], first: Literal) -> Option<Literal>
    requires { All (IsLiteralOf trail.now.variables) clause.now }
    ensures some { IfSome result (IsOtherWatch trail.now.literals clause.now first) }
    ensures none { IsNone result → AreOthersFalse trail.now.literals clause.now first }
{
    match free_literal(trail, clause, first) {
        Some(free) => Some(free.literal),
        None => None,
    }
}

/// The first literal, from place `from` on and then before it, that is not false and is not `first`, and its
/// place in the clause.
fn find_watch(trail: &Trail, clause: &[Literal], first: Literal, from: usize) -> Option<Free>
    requires { All (IsLiteralOf trail.now.variables) clause.now }
    ensures some { IfSome result (λ free. IsOtherWatch trail.now.literals clause.now first free.literal) }
    ensures none { IsNone result → AreOthersFalse trail.now.literals clause.now first }
{
    let middle = from.min(clause.len());
    let (front, back) = clause.split_at(middle);
    match free_literal(trail, back, first) {
        Some(free) => Some(Free {
            literal: free.literal,
            place: free.place.wrapping_add(middle),
        }),
        None => free_literal(trail, front, first),
    }
}

/// The other literal that the clause watches, if it watches `literal`.
fn partner(pair: Pair, literal: Literal) -> Option<Literal>
    ensures some { IfSome result (IsPartner pair literal) }
    ensures none { IsNone result → IsOneOf pair literal → ⊥ }
{
    if pair.one.is(literal) {
        Some(pair.other)
    } else if pair.other.is(literal) {
        Some(pair.one)
    } else {
        None
    }
}

/// Makes the literal `first` true by a clause whose other literals are false, or finds that the clause is
/// false.
fn follow(trail: &mut Trail, clause: usize, first: Literal) -> Visit
    requires literal { IsLiteralOf trail.old.variables first }
    requires not_true { Holds trail.old.literals first → ⊥ }
    ensures { IsFollowed trail.old trail.new clause first result }
{
    if trail.is_false(first) {
        return Visit::Conflict(clause);
    }
    trail.push_implied(first, clause);
    Visit::Next
}

/// The watcher of a clause that is not known to have only two literals.
fn long_watch(clause: usize, blocker: Literal) -> Watch
    ensures { result ≡ record { clause = clause; blocker = blocker; binary = false } }
{
    Watch {
        clause,
        blocker,
        binary: false,
    }
}

/// Visits a clause that watches `x` and `first`. Where `first` is true it becomes the blocker: it is likely
/// to be true again when `x` is false.
fn visit_clause(
    trail: &mut Trail,
    watches: &mut Watches,
    clauses: &ClauseList,
    x: Literal,
    at: usize,
    clause: usize,
    first: Literal,
) -> Result<Visit, AllocError>
    requires handling { IsHandling clauses.now.list trail.old watches.old x at }
    requires at { at < length (list_at watches.old.lists x) }
    requires clause { (watch_at (list_at watches.old.lists x) at).clause ≡ clause }
    requires first { IsPartner (pair_at watches.old.pairs clause) x first }
    ensures visited { IfOk result (IsVisited clauses.now.list trail.new watches.old watches.new x at) }
    ensures extended { OnOk result (IsExtended clauses.now.list trail.old trail.new) }
    ensures handled { OnOk result (watches.new.handled ≡ watches.old.handled) }
{
    if first.is(x) {
        return Ok(Visit::Next);
    }
    if trail.is_true(first) {
        watches.set(x, at, long_watch(clause, first));
        return Ok(Visit::Next);
    }
    match find_watch(trail, clauses.get(clause), first, watches.found(clause)) {
        Some(free) => {
            watches.push(free.literal, long_watch(clause, first))?;
            watches.set_pair(
                clause,
                Pair {
                    one: first,
                    other: free.literal,
                },
            );
            watches.set_found(clause, free.place);
            watches.remove(x, at);
            Ok(Visit::Again)
        }
        None => Ok(follow(trail, clause, first)),
    }
}

/// Visits the clause of watcher `at` of the literal that the next entry makes false.
pub fn visit_watcher(
    trail: &mut Trail,
    watches: &mut Watches,
    clauses: &ClauseList,
    x: Literal,
    at: usize,
) -> Result<Visit, AllocError>
    requires handling { IsHandling clauses.now.list trail.old watches.old x at }
    requires at { at < length (list_at watches.old.lists x) }
    ensures visited { IfOk result (IsVisited clauses.now.list trail.new watches.old watches.new x at) }
    ensures extended { OnOk result (IsExtended clauses.now.list trail.old trail.new) }
    ensures handled { OnOk result (watches.new.handled ≡ watches.old.handled) }
{
    let watch = watches.get(x, at);
    if trail.is_true(watch.blocker) {
        return Ok(Visit::Next);
    }
    if watch.binary {
        return Ok(follow(trail, watch.clause, watch.blocker));
    }
    match partner(watches.pair(watch.clause), x) {
        Some(first) => visit_clause(trail, watches, clauses, x, at, watch.clause, first),
        None => {
            watches.remove(x, at);
            Ok(Visit::Again)
        }
    }
}
