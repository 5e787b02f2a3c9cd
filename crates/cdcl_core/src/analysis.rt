//! The learned clause of a conflict.
//!
//! Analysis goes back over the trail from its end. It marks the entries that make the conflict's clause
//! false, and replaces the last marked entry by those that made its reason force it, until one entry of the
//! conflict's level is left: the first unique implication point. The learned clause says that the marked
//! entries do not stand together. Clauses of the first point are short and let the search go back far.
//! Source: GRASP, and Chaff for the first point.
//!
//! Then marked entries of lower levels that the other marked entries imply are replaced too, as in MiniSat,
//! with the entries between, which makes the clause shorter; and so are entries that stand without a
//! decision, so that no learned clause mentions them. Each replacement is a resolution and gives a hint; in
//! reverse, the hints are the reasons in the order of the trail, and then the conflict's clause. An entry is
//! replaced once, after all entries behind it that are replaced, so each reason is one hint. So the room that
//! the clause and its hints can take is known before, and the analysis itself takes no memory (`HasRoom`).
ghost use Rattle.std.specs.Prelude.{◌≡◌, ◌+◌, ◌<◌, ◌≤◌, ◌^◌, length, vec_len, vec_capacity, All, OnOk};
ghost use Rattle.std.specs.Prelude.{reverse};
ghost use Rattle.proof_semantics.specs.Clauses.{AreClausesOf};
ghost use Rattle.cdcl_core.specs.Trail.{IsTrail};
ghost use Rattle.cdcl_core.specs.Explained.{IsExplained};
ghost use Rattle.cdcl_core.specs.Placed.{last_start};
ghost use Rattle.cdcl_core.specs.Propagation.{IsConflict};
ghost use Rattle.cdcl_core.specs.Analysis.{IsMarkedFrom, IsOneFrom, IsShortened};
ghost use Rattle.cdcl_core.specs.Analysed.{IsAnalysed, HasRoom};
ghost use Rattle.cdcl_core.specs.Region.{HasPlace};
ghost use Rattle.cdcl_core.specs.Jump.{IsRunning};

use crate::clause_list::{ClauseList, id_of};
use crate::decision_order::Order;
use crate::implied::Implied;
use crate::literal::Literal;
use crate::resolution::{mark_conflict, resolve};
use crate::trail::Trail;
use crate::trail_marks::Marks;
use std::alloc::{AllocError, Global};

/// A learned clause: its literals; its hints, of which the last stands first; and the entry of its literal of
/// the conflict's level.
#[derive(Drop)]
pub struct Learned {
    pub clause: Vec<Literal>,
    pub hints: Vec<u64>,
    pub place: usize,
    /// The number of levels of the literals.
    pub levels: u64,
}

impl Learned {
    /// Nothing was learned yet, and there is no room.
    pub fn none(alloc: Global) -> Learned {
        Learned {
            clause: Vec::new(alloc),
            hints: Vec::new(alloc),
            place: 0,
            levels: 0,
        }
    }
}

/// Takes the memory for the analysis of a conflict where the trail has `entries` entries, and for the place
/// of the learned clause among the clauses. After that no entry is marked.
pub fn make_room(
    entries: usize,
    clauses: &mut ClauseList,
    order: &mut Order,
    marks: &mut Marks,
    implied: &mut Implied,
    learned: &mut Learned,
) -> Result<(), AllocError>
    requires { entries < 2 ^ 32 }
    ensures room { OnOk result
        (HasRoom entries marks.new (vec_capacity learned.new.clause) (vec_capacity learned.new.hints)) }
    ensures place { OnOk result (HasPlace (length marks.new) clauses.new) }
    ensures clauses { clauses.new.list ≡ clauses.old.list }
    ensures order { order.new ≡ order.old }
{
    order.make_room(entries)?;
    marks.make_room(entries)?;
    implied.make_room(entries)?;
    learned.clause.clear();
    learned.clause.reserve(marks.len())?;
    learned.hints.clear();
    learned.hints.reserve(entries + 1)?;
    clauses.reserve(marks.len())
}

/// Resolves marked entries from the last on, until one from `start` on is left, and returns its place.
fn reach_one(
    trail: &Trail,
    clauses: &ClauseList,
    marks: &mut Marks,
    hints: &mut Vec<u64>,
    start: usize,
) -> usize
    requires marks { length trail.now.literals ≤ length marks.old }
    requires room { vec_len hints.old + length trail.now.literals ≤ vec_capacity hints.old }
    requires trail { IsTrail clauses.now.list trail.now.literals trail.now.reasons trail.now.starts }
    requires last { All (λ s. s ≤ start) trail.now.starts }
    requires some { IsMarkedFrom marks.old start (length trail.now.literals) }
    requires explained { IsExplained clauses.now.list trail.now.literals marks.old (reverse hints.old.items) }
    ensures explained { IsExplained clauses.now.list trail.now.literals marks.new (reverse hints.new.items) }
    ensures one { IsOneFrom trail.now.literals marks.new start result }
    ensures same { length marks.new ≡ length marks.old }
    ensures room { vec_len hints.new + start ≤ vec_capacity hints.new }
{
    let mut top = match marks.find_highest(start, trail.len()) {
        Some(place) => place,
        None => unreachable!(),
    };
    'down: while let Some(next) = marks.find_highest(start, top) {
        match trail.reason(top) {
            Some(reason) => {
                resolve(trail, clauses, marks, hints, top, reason);
            }
            None => unreachable!(),
        }
        top = marks.highest(next, top);
    }
    top
}

/// The variables of the entries that were marked come first in the order, but for the variables of entries
/// that stand without a decision.
fn bring_marked(trail: &Trail, marks: &Marks, order: &mut Order)
    requires { 0 < length trail.now.starts }
    ensures { order.new ≡ order.old }
{
    let first = trail.start(0);
    for i in 0..marks.touched() {
        if let Some(place) = marks.touched_place(i) {
            if first <= place && place < trail.len() {
                order.note(trail.literal(place));
            }
        }
    }
    order.bump();
}

/// The variables of a clause come first in the order, the variable of its last literal before the others.
fn bring_clause(clause: &[Literal], order: &mut Order)
    ensures { order.new ≡ order.old }
{
    for literal in clause {
        order.bring(*literal);
    }
}

/// The variables of the clauses that were resolved come first in the order, the variables of the last clause
/// before the others.
fn bring_resolved(clauses: &ClauseList, hints: &[u64], order: &mut Order)
    ensures { order.new ≡ order.old }
{
    for hint in hints {
        let number = *hint as usize;
        if 0 < number && number <= clauses.len() {
            bring_clause(clauses.get(number - 1), order);
        }
    }
}

/// The variables of a conflict come first in the order: where variables keep their order, those of the
/// entries that were marked, and else those of each clause that was resolved.
pub fn bring_forward(
    trail: &Trail,
    clauses: &ClauseList,
    marks: &Marks,
    hints: &[u64],
    order: &mut Order,
)
    requires { 0 < length trail.now.starts }
    ensures { order.new ≡ order.old }
{
    if order.keeps_order() {
        bring_marked(trail, marks, order);
    } else {
        bring_resolved(clauses, hints, order);
    }
}

/// Resolves the entry at `place`, if it is marked and has a reason.
fn shorten_at(
    trail: &Trail,
    clauses: &ClauseList,
    marks: &mut Marks,
    hints: &mut Vec<u64>,
    place: usize,
)
    requires marks { length trail.now.literals ≤ length marks.old }
    requires room { vec_len hints.old < vec_capacity hints.old }
    requires place { place < length trail.now.literals }
    requires trail { IsTrail clauses.now.list trail.now.literals trail.now.reasons trail.now.starts }
    requires explained { IsExplained clauses.now.list trail.now.literals marks.old (reverse hints.old.items) }
    ensures explained { IsExplained clauses.now.list trail.now.literals marks.new (reverse hints.new.items) }
    ensures shortened { IsShortened marks.old marks.new (place + 1) }
    ensures one { vec_len hints.new ≤ vec_len hints.old + 1 }
    ensures room { vec_capacity hints.new ≡ vec_capacity hints.old }
{
    if !marks.is(place) {
        return;
    }
    if let Some(reason) = trail.reason(place) {
        resolve(trail, clauses, marks, hints, place, reason);
    }
}

/// Resolves the entries from `first` to before `start` that the other marked entries imply, from the last on.
/// Returns the number of places that were sorted.
fn shorten(
    trail: &Trail,
    clauses: &ClauseList,
    marks: &mut Marks,
    implied: &mut Implied,
    hints: &mut Vec<u64>,
    start: usize,
    first: usize,
) -> usize
    requires marks { length trail.now.literals ≤ length marks.old }
    requires room { vec_len hints.old + start ≤ vec_capacity hints.old }
    requires first { first ≤ start }
    requires start { start ≤ length trail.now.literals }
    requires trail { IsTrail clauses.now.list trail.now.literals trail.now.reasons trail.now.starts }
    requires explained { IsExplained clauses.now.list trail.now.literals marks.old (reverse hints.old.items) }
    ensures explained { IsExplained clauses.now.list trail.now.literals marks.new (reverse hints.new.items) }
    ensures shortened { IsShortened marks.old marks.new start }
    ensures room { vec_len hints.new + first ≤ vec_capacity hints.new }
{
    let places = marks.sort(first, start);
    let mut rest = implied.find(trail, clauses, marks, first, places);
    let mut top = start;
    'down: while rest > 0 {
        rest -= 1;
        let place = implied.implied_place(rest).unwrap_or(start);
        if first <= place && place < top {
            shorten_at(trail, clauses, marks, hints, place);
            top = place;
        }
    }
    places
}

/// Resolves the marked entries before `first`, which stand without a decision.
fn resolve_base(
    trail: &Trail,
    clauses: &ClauseList,
    marks: &mut Marks,
    hints: &mut Vec<u64>,
    first: usize,
)
    requires marks { length trail.now.literals ≤ length marks.old }
    requires room { vec_len hints.old + first ≤ vec_capacity hints.old }
    requires first { first ≤ length trail.now.literals }
    requires trail { IsTrail clauses.now.list trail.now.literals trail.now.reasons trail.now.starts }
    requires explained { IsExplained clauses.now.list trail.now.literals marks.old (reverse hints.old.items) }
    ensures explained { IsExplained clauses.now.list trail.now.literals marks.new (reverse hints.new.items) }
    ensures shortened { IsShortened marks.old marks.new first }
{
    let mut top = first;
    'down: while let Some(next) = marks.find_highest(0, top) {
        shorten_at(trail, clauses, marks, hints, next);
        top = next;
    }
}

/// The level of an entry, counted from 1, where it is at most `level`; 0 for an entry before the first
/// decision.
fn level_of(trail: &Trail, place: usize, level: usize) -> usize
    requires { level ≤ length trail.now.starts }
    ensures { result ≤ level }
{
    let mut found = level;
    'down: while found > 0 && place < trail.start(found - 1) {
        found -= 1;
    }
    found
}

/// Of how many levels the marked entries are: the last one, and those of the marked places that were sorted.
fn count_levels(trail: &Trail, marks: &Marks, places: usize, start: usize) -> u64
    requires marks { length trail.now.literals ≤ length marks.now }
    requires start { start ≤ length trail.now.literals }
{
    let mut count: u64 = 1;
    let mut level = trail.levels();
    let mut from = start;
    let mut rest = places;
    'down: while rest > 0 {
        rest -= 1;
        let place = marks.sorted_place(rest).unwrap_or(start);
        if place < from && place < start && marks.is(place) {
            count = count.saturating_add(1);
            level = level_of(trail, place, level);
            from = if level > 0 { trail.start(level - 1) } else { 0 };
        }
    }
    count
}

/// The clause of the first unique implication point of a conflict. There is room.
pub fn learn(
    trail: &Trail,
    clauses: &ClauseList,
    marks: &mut Marks,
    implied: &mut Implied,
    learned: &mut Learned,
    conflict: usize,
)
    requires room { HasRoom (length trail.now.literals) marks.old (vec_capacity learned.old.clause)
        (vec_capacity learned.old.hints) }
    requires running { IsRunning clauses.now.list trail.now }
    requires levels { 0 < length trail.now.starts }
    requires conflict { IsConflict clauses.now.list trail.now conflict }
    requires literals { AreClausesOf trail.now.variables clauses.now.list }
    ensures analysed { IsAnalysed clauses.now.list trail.now (last_start trail.now) learned.new }
    ensures few { vec_len learned.new.clause ≤ length marks.old }
{
    trail.consistent();
    let start = trail.start(trail.levels() - 1);
    let first = trail.start(0).min(start);
    mark_conflict(trail, clauses, marks, conflict);
    learned.hints.clear();
    learned.hints.push_reserved(id_of(clauses, conflict));
    learned.place = reach_one(trail, clauses, marks, &mut learned.hints, start);
    let hints = &mut learned.hints;
    let places = shorten(trail, clauses, marks, implied, hints, start, first);
    resolve_base(trail, clauses, marks, &mut learned.hints, first);
    learned.levels = count_levels(trail, marks, places, start);
    marks.gather_clause(trail, &mut learned.clause);
}
