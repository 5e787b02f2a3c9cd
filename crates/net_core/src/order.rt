//! An order of tables, each behind the tables that it reads, or the first table that has no place in any
//! order. Source: Kahn's topological sorting. A table waits for one table at a time, the first that it reads
//! and that has no place yet; once that table has its place, the search goes on from there. So each pin is
//! passed once, and no counts of pins are kept.
ghost use Rattle.std.specs.Prelude.{◌≡◌, ◌↔◌, ◌<◌, ◌+◌, ◌^◌, ℕ, List, [], ◌∷◌, take, replicate, length};
ghost use Rattle.std.specs.Prelude.{slice_index, IsTrue, IfOk, OnOk, IfSome, MatchResult, MatchOption, All};
ghost use Rattle.std.specs.Prelude.{Contains, Some};
ghost use Rattle.semantics.specs.Net.{IsAcyclic};
ghost use Rattle.semantics.specs.Order.{IsKnown, IsOrderOf};
ghost use Rattle.semantics.specs.Refusals.{first_ungrounded};
ghost use Rattle.net_core.specs.Places.{IsKnownAt};
ghost use Rattle.net_core.specs.Sorting.{waiters_of, placed_at_end, waiting_for, without_waiters};
ghost use Rattle.net_core.specs.Sorting.{IsFirstUnknown, IsSorting, IsSettled};

use net_parts::items::Signal;
use net_parts::table::Table;
use std::alloc::{AllocError, Global};
use std::marker::Model;
use std::mem;

/// The order so far; which tables have a place in it; for each table, the tables that wait for it; and for
/// each table, the number of its pins that are known to be ready.
#[derive(Drop)]
struct Sorting {
    order: Vec<u32>,
    placed: Vec<bool>,
    waiters: Vec<Vec<u32>>,
    checked: Vec<usize>,
}

impl Model for Sorting {
    ghost use Rattle.std.specs.Prelude.{◌≡◌, map, length};
    ghost use Rattle.net_core.specs.Places.{IsKnownAt};
    ghost use Rattle.net_core.specs.Sorting.{Sorting, IsMarked};

    ghost Value = { Sorting };

    ghost view = { λ a. record {
      order = a.order.items;
      waiters = map (λ v. v.items) a.waiters.items;
      checked = a.checked.items;
    } };

    ghost invariant = { λ a. IsMarked a.order.items a.placed.items
        × (length a.placed.items ≡ length a.waiters.items)
        × (length a.checked.items ≡ length a.waiters.items) };
}

impl Sorting {
    /// No table has a place, and none waits.
    #[tactic(auto, using(crate::proofs::Views::of_view))]
    fn new(alloc: Global, count: usize) -> Result<Sorting, AllocError>
        ensures { IfOk result (λ s. s
            ≡ record { order = []; waiters = replicate count []; checked = replicate count 0 }) }
    {
        let mut waiters = Vec::new(alloc);
        for _ in 0..count {
            waiters.push(Vec::new(alloc))?;
        }
        Ok(Sorting {
            order: Vec::new(alloc),
            placed: vec![in alloc; false; count]?,
            waiters,
            checked: vec![in alloc; 0; count]?,
        })
    }

    /// Whether a table has a place.
    fn has_place(&self, i: u32) -> bool
        requires { i < length self.now.waiters }
        ensures { IsTrue result ↔ Contains self.now.order i }
    {
        self.placed[i as usize]
    }

    /// Puts a table at the end of the order.
    fn place(&mut self, i: u32) -> Result<(), AllocError>
        requires { i < length self.old.waiters }
        ensures { OnOk result (self.new ≡ placed_at_end self.old i) }
    {
        self.order.push(i)?;
        self.placed[i as usize] = true;
        Ok(())
    }

    /// Lets table `i`, whose first `ready` pins are ready, wait for table `t`.
    #[tactic(auto, using(crate::proofs::Views::of_view))]
    fn wait(&mut self, t: u32, i: u32, ready: usize) -> Result<(), AllocError>
        requires t_in { t < length self.old.waiters }
        requires i_in { i < length self.old.waiters }
        ensures { OnOk result (self.new ≡ waiting_for self.old t i ready) }
    {
        self.waiters[t as usize].push(i)?;
        self.checked[i as usize] = ready;
        Ok(())
    }

    /// How many pins of a table are known to be ready.
    fn checked(&self, i: u32) -> usize
        requires { i < length self.now.waiters }
        ensures { result ≡ slice_index self.now.checked i }
    {
        self.checked[i as usize]
    }

    /// Takes the tables that wait for a table, and leaves it none.
    #[tactic(auto, using(crate::proofs::Views::of_view))]
    fn take_waiters(&mut self, t: u32) -> Vec<u32>
        requires { t < length self.old.waiters }
        ensures taken { result.items ≡ waiters_of self.old t }
        ensures rest { self.new ≡ without_waiters self.old t }
    {
        let none = Vec::new(*self.order.allocator());
        mem::replace(&mut self.waiters[t as usize], none)
    }

    /// Whether a signal is an input, or a table that has a place.
    fn is_known(&self, inputs: u32, signal: Signal) -> bool
        requires { signal < inputs + length self.now.waiters }
        ensures { IsTrue result ↔ IsKnown inputs self.now.order signal }
    {
        signal < inputs || self.has_place(signal - inputs)
    }

    /// The first pin whose table has no place, where the first `checked` pins are known to be ready.
    fn first_unknown(&self, inputs: u32, pins: &[Signal], checked: usize) -> Option<usize>
        requires pins_in { All (λ s. s < inputs + length self.now.waiters) pins.now }
        requires ready { All (IsKnown inputs self.now.order) (take checked pins.now) }
        ensures { MatchOption result (All (IsKnown inputs self.now.order) pins.now)
            (IsFirstUnknown inputs self.now.order pins.now) }
    {
        for k in checked..pins.len() {
            if !self.is_known(inputs, pins[k]) {
                return Some(k);
            }
        }
        None
    }

    /// Gives a table a place if all tables that it reads have one, and else lets it wait.
    fn visit(&mut self, inputs: u32, tables: &[Table], i: u32) -> Result<(), AllocError>
        requires sorting { IsSorting inputs tables.now self.old }
        requires within { i < length tables.now }
        requires pins { All (λ t. All (λ s. s < inputs + length tables.now) t.pins) tables.now }
        ensures sorting { OnOk result (IsSorting inputs tables.now self.new) }
        ensures settled { OnOk result ((head : ℕ) (rest : List ℕ)
            → IsSettled inputs tables.now self.old head (i ∷ rest)
            → IsSettled inputs tables.now self.new head rest) }
    {
        if self.has_place(i) {
            return Ok(());
        }
        let pins = tables[i as usize].pins().as_slice();
        match self.first_unknown(inputs, pins, self.checked(i)) {
            Some(k) => self.wait(pins[k] - inputs, i, k),
            None => self.place(i),
        }
    }

    /// Visits these tables.
    fn visit_all(&mut self, inputs: u32, tables: &[Table], list: &[u32]) -> Result<(), AllocError>
        requires sorting { IsSorting inputs tables.now self.old }
        requires within { All (λ i. i < length tables.now) list.now }
        requires pins { All (λ t. All (λ s. s < inputs + length tables.now) t.pins) tables.now }
        ensures sorting { OnOk result (IsSorting inputs tables.now self.new) }
        ensures settled { OnOk result ((head : ℕ)
            → IsSettled inputs tables.now self.old head list.now
            → IsSettled inputs tables.now self.new head []) }
    {
        for i in list {
            self.visit(inputs, tables, *i)?;
        }
        Ok(())
    }

    /// How many tables have a place.
    fn count(&self) -> usize
        ensures { result ≡ length self.now.order }
    {
        self.order.len()
    }

    /// The table at place `head` of the order.
    fn member(&self, head: usize) -> u32
        requires { head < length self.now.order }
        ensures { result ≡ slice_index self.now.order head }
    {
        self.order[head]
    }

    /// Visits the tables that wait for the table at place `head` of the order.
    fn step(&mut self, inputs: u32, tables: &[Table], head: usize) -> Result<(), AllocError>
        requires sorting { IsSorting inputs tables.now self.old }
        requires settled { IsSettled inputs tables.now self.old head [] }
        requires within { head < length self.old.order }
        requires pins { All (λ t. All (λ s. s < inputs + length tables.now) t.pins) tables.now }
        ensures sorting { OnOk result (IsSorting inputs tables.now self.new) }
        ensures settled { OnOk result (IsSettled inputs tables.now self.new (head + 1) []) }
    {
        let t = self.member(head);
        let waiters = self.take_waiters(t);
        self.visit_all(inputs, tables, &waiters)
    }

    /// The first of `count` tables that has no place.
    fn first_without_place(&self, count: u32) -> Option<u32>
        requires { count ≡ length self.now.waiters }
        ensures { MatchOption result ((j : ℕ) → j < count → Contains self.now.order j)
            (λ i. (i < count) × (¬ Contains self.now.order i)
            × ((j : ℕ) → j < i → Contains self.now.order j)) }
    {
        for i in 0..count {
            if !self.has_place(i) {
                return Some(i);
            }
        }
        None
    }

    /// The order.
    fn into_order(self) -> Vec<u32>
        ensures { result.items ≡ self.order }
    {
        self.order
    }
}

/// The sorting after a visit to each table: a table that waits for no table has a place.
fn visited(alloc: Global, inputs: u32, tables: &[Table], count: u32) -> Result<Sorting, AllocError>
    requires count { count ≡ length tables.now }
    requires pins { All (λ t. All (λ s. s < inputs + length tables.now) t.pins) tables.now }
    ensures sorting { IfOk result (λ s. IsSorting inputs tables.now s) }
    ensures settled { IfOk result (λ s. IsSettled inputs tables.now s 0 []) }
{
    let mut sorting = Sorting::new(alloc, tables.len())?;
    for i in 0..count {
        sorting.visit(inputs, tables, i)?;
    }
    Ok(sorting)
}

/// The sorting at its end: each table has a place in the order, or waits for a table without one.
fn settle(alloc: Global, inputs: u32, tables: &[Table], count: u32) -> Result<Sorting, AllocError>
    requires count { count ≡ length tables.now }
    requires pins { All (λ t. All (λ s. s < inputs + length tables.now) t.pins) tables.now }
    ensures sorting { IfOk result (λ s. IsSorting inputs tables.now s) }
    ensures settled { IfOk result (λ s. IsSettled inputs tables.now s (length s.order) []) }
{
    let mut sorting = visited(alloc, inputs, tables, count)?;
    let mut head = 0;
    while head < sorting.count() {
        sorting.step(inputs, tables, head)?;
        head += 1;
    }
    Ok(sorting)
}

/// An order of the tables, in which tables that are in order keep their order; or else the first table that
/// depends on itself or on a table that does.
pub fn order_of(
    alloc: Global,
    inputs: u32,
    tables: &[Table],
) -> Result<Result<Vec<u32>, u32>, AllocError>
    requires few_signals { inputs + length tables.now < 2 ^ 31 }
    requires pins { All (λ t. All (λ s. s < inputs + length tables.now) t.pins) tables.now }
    ensures { IfOk result (λ found. MatchResult found
        (λ order. IsOrderOf inputs tables.now order.items)
        (λ i. first_ungrounded inputs tables.now ≡ Some i)) }
{
    let count = tables.len() as u32;
    let sorting = settle(alloc, inputs, tables, count)?;
    match sorting.first_without_place(count) {
        Some(i) => Ok(Err(i)),
        None => Ok(Ok(sorting.into_order())),
    }
}

/// An order of tables that are known to have one.
pub(crate) fn order_of_acyclic(
    alloc: Global,
    inputs: u32,
    tables: &[Table],
) -> Result<Vec<u32>, AllocError>
    requires few_signals { inputs + length tables.now < 2 ^ 31 }
    requires acyclic { IsAcyclic inputs tables.now }
    ensures { IfOk result (λ order. IsOrderOf inputs tables.now order.items) }
{
    let Ok(order) = order_of(alloc, inputs, tables)? else {
        unreachable!()
    };
    Ok(order)
}

/// Whether table `i` stands before table `t` in an order.
fn stands_before(order: &[u32], t: u32, i: u32) -> bool
    ensures { IsTrue result → (k : ℕ) → k < length order.now → slice_index order.now k ≡ t
        → Contains (take k order.now) i }
{
    for j in order {
        if *j == t {
            return false;
        }
        if *j == i {
            return true;
        }
    }
    false
}

/// Whether a signal is an input, or a table that stands before table `t` in an order.
fn is_known_at(inputs: u32, order: &[u32], t: u32, signal: Signal) -> bool
    ensures { IsTrue result → IsKnownAt inputs order.now t signal }
{
    signal < inputs || stands_before(order, t, signal - inputs)
}

/// Whether each of these signals is an input, or a table that stands before table `t` in an order. Then the
/// order is also one where table `t` reads these signals.
pub(crate) fn are_known_at(inputs: u32, order: &[u32], t: u32, signals: &[Signal]) -> bool
    ensures { IsTrue result → All (IsKnownAt inputs order.now t) signals.now }
{
    for signal in signals {
        if !is_known_at(inputs, order, t, *signal) {
            return false;
        }
    }
    true
}
