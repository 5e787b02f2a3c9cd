//! Marks on the entries of the trail, for what the analysis has not replaced yet.
//!
//! The places that were marked are listed, so that clearing the marks and gathering a clause touch only these
//! and not the whole trail. Each place is listed once, so there is room for all from the start, and marking
//! takes no memory.
ghost use Rattle.std.specs.Prelude.{◌≡◌, ℕ, ◌+◌, ◌<◌, ◌≤◌, [], true, false, length, slice_set, max, All};
ghost use Rattle.std.specs.Prelude.{vec_len, vec_capacity, IfSome, IsNone, OnOk};
ghost use Rattle.cdcl_core.specs.Analysis.{mark_at, IsClauseOf, IsHighest};
ghost use Rattle.cdcl_core.specs.Touched.{AreTouched, AreListed};

use crate::literal::Literal;
use crate::trail::Trail;
use std::alloc::{AllocError, Global};
use std::marker::Model;

/// Marks by place; whether a place is listed; the places that were marked since the marks were cleared; a
/// sorted part of these places; and how many places had been marked when they were sorted.
#[derive(Drop)]
pub struct Marks {
    on: Vec<bool>,
    listed: Vec<bool>,
    touched: Vec<usize>,
    sorted: Vec<usize>,
    before: usize,
}

impl Model for Marks {
    ghost use Rattle.std.specs.Prelude.{List, Bool, vec_capacity};
    ghost use Rattle.cdcl_core.specs.Touched.{AreListed};

    ghost Value = { List Bool };

    ghost view = { λ m. m.on.items };

    ghost invariant = { λ m. AreListed m.on.items m.listed.items m.touched.items (vec_capacity m.touched)
        (vec_capacity m.sorted) };
}

/// Sets the listed places, which are all that are set, to false.
fn unset_places(places: &mut Vec<bool>, touched: &[usize])
    requires { AreTouched places.old.items touched.now }
    ensures none { (p : ℕ) → mark_at places.new.items p ≡ false }
    ensures same { length places.new.items ≡ length places.old.items }
{
    for place in touched {
        places[*place] = false;
    }
}

/// Grows both lists to at least `entries` places, none of which is set where none was. Where memory is
/// wanting, each has as many places as before.
fn grow_places(on: &mut Vec<bool>, listed: &mut Vec<bool>, entries: usize) -> Result<(), AllocError>
    requires same { length listed.old.items ≡ length on.old.items }
    requires none { (p : ℕ) → mark_at on.old.items p ≡ false }
    requires none_listed { (p : ℕ) → mark_at listed.old.items p ≡ false }
    ensures same { length listed.new.items ≡ length on.new.items }
    ensures none { (p : ℕ) → mark_at on.new.items p ≡ false }
    ensures none_listed { (p : ℕ) → mark_at listed.new.items p ≡ false }
    ensures ok { OnOk result (length on.new.items ≡ max (length on.old.items) entries) }
    ensures few { length on.new.items ≤ max (length on.old.items) entries }
{
    let places = on.len();
    if entries <= places {
        return Ok(());
    }
    listed.reserve(entries - places)?;
    on.resize(entries, false)?;
    match listed.resize(entries, false) {
        Ok(()) => Ok(()),
        Err(_) => unreachable!(),
    }
}

/// Gathers the marked places from `low` to below `high` among those that are listed, for which there is room.
fn gather_marked(on: &[bool], touched: &[usize], low: usize, high: usize, gathered: &mut Vec<usize>)
    requires within { All (λ p. p < length on.now) touched.now }
    requires room { vec_len gathered.old + length touched.now ≤ vec_capacity gathered.old }
    ensures { vec_capacity gathered.new ≡ vec_capacity gathered.old }
{
    for place in touched {
        if low <= *place && *place < high && on[*place] {
            gathered.push_reserved(*place);
        }
    }
}

impl Marks {
    /// The marks of no place.
    pub fn new(alloc: Global) -> Marks
        ensures { result ≡ [] }
    {
        Marks {
            on: Vec::new(alloc),
            listed: Vec::new(alloc),
            touched: Vec::new(alloc),
            sorted: Vec::new(alloc),
            before: 0,
        }
    }

    /// Takes all marks away, and makes `entries` entries have places. Where memory is wanting, as many
    /// entries have places as before.
    pub fn make_room(&mut self, entries: usize) -> Result<(), AllocError>
        ensures none { (p : ℕ) → mark_at self.new p ≡ false }
        ensures room { OnOk result (entries ≤ length self.new) }
    {
        unset_places(&mut self.on, &self.touched);
        unset_places(&mut self.listed, &self.touched);
        self.touched.clear();
        self.touched.reserve(entries)?;
        self.sorted.clear();
        self.sorted.reserve(entries)?;
        grow_places(&mut self.on, &mut self.listed, entries)
    }

    /// Whether a place is marked.
    pub fn is(&self, place: usize) -> bool
        requires { place < length self.now }
        ensures { result ≡ mark_at self.now place }
    {
        self.on[place]
    }

    /// Whether a place is one of the marked ones.
    pub fn has(&self, place: usize) -> bool {
        place < self.on.len() && self.on[place]
    }

    /// Marks a place.
    pub fn set(&mut self, place: usize)
        requires { place < length self.old }
        ensures { self.new ≡ slice_set self.old place true }
    {
        self.on[place] = true;
        if !self.listed[place] {
            self.listed[place] = true;
            self.touched.push_reserved(place);
        }
    }

    /// Takes a mark away.
    pub fn unset(&mut self, place: usize)
        requires { place < length self.old }
        ensures { self.new ≡ slice_set self.old place false }
    {
        self.on[place] = false;
    }

    /// The last marked place from `low` to below `high`; `low` is marked.
    pub fn highest(&self, low: usize, high: usize) -> usize
        requires order { low < high }
        requires within { high ≤ length self.now }
        requires marked { mark_at self.now low ≡ true }
        ensures { IsHighest self.now low high result }
    {
        let mut place = high - 1;
        'down: while !self.on[place] {
            place -= 1;
        }
        place
    }

    /// The last marked place from `low` to below `high`, if there is one.
    pub fn find_highest(&self, low: usize, high: usize) -> Option<usize>
        requires order { low ≤ high }
        requires within { high ≤ length self.now }
        ensures some { IfSome result (IsHighest self.now low high) }
        ensures none { IsNone result → (p : ℕ) → low ≤ p → p < high → mark_at self.now p ≡ false }
    {
        let mut place = high;
        'down: while place > low {
            place -= 1;
            if self.on[place] {
                return Some(place);
            }
        }
        None
    }

    /// How many places there are.
    pub fn len(&self) -> usize
        ensures { result ≡ length self.now }
    {
        self.on.len()
    }

    /// How many places were marked before they were sorted.
    pub fn touched(&self) -> usize {
        self.before
    }

    /// One of the places that were marked.
    pub fn touched_place(&self, i: usize) -> Option<usize> {
        if i < self.touched.len() {
            Some(self.touched[i])
        } else {
            None
        }
    }

    /// Sorts the marked places from `low` to below `high`, and returns their number.
    pub fn sort(&mut self, low: usize, high: usize) -> usize
        ensures { self.new ≡ self.old }
    {
        self.before = self.touched.len();
        self.sorted.clear();
        gather_marked(&self.on, &self.touched, low, high, &mut self.sorted);
        self.sorted.sort_unstable();
        self.sorted.len()
    }

    /// One of the places that were sorted.
    pub fn sorted_place(&self, i: usize) -> Option<usize> {
        if i < self.sorted.len() {
            Some(self.sorted[i])
        } else {
            None
        }
    }

    /// Puts the negations of the marked literals into a list, in which there is room for them.
    pub fn gather_clause(&self, trail: &Trail, clause: &mut Vec<Literal>)
        requires marks { length trail.now.literals ≤ length self.now }
        requires room { length self.now ≤ vec_capacity clause.old }
        ensures clause { IsClauseOf trail.now.literals self.now clause.new.items }
        ensures few { vec_len clause.new ≤ length self.now }
        ensures room { vec_capacity clause.new ≡ vec_capacity clause.old }
    {
        clause.clear();
        for place in &self.touched {
            if *place < trail.len() && self.on[*place] {
                clause.push_reserved(trail.literal(*place).negated());
            }
        }
    }
}
