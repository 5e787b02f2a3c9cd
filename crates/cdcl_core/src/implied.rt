//! Which entries of the trail the marked ones imply. No statement depends on it.
//!
//! The last level's entries but one are replaced when this is asked. A marked entry of a lower level is
//! needless where each entry that forced it is marked, stands without a decision, or is itself forced by such
//! entries, over as many reasons as it takes. Then the analysis replaces it, and the entries between. What is
//! found of an entry is noted, so that each reason is read once. Source: the minimization of learned clauses
//! in MiniSat.
use crate::clause_list::ClauseList;
use crate::literal::Literal;
use crate::trail::Trail;
use crate::trail_marks::Marks;
use std::alloc::{AllocError, Global};

/// Over how many reasons, one behind the other, an entry may follow. A chain of carries is seldom longer.
const DEEPEST: u32 = 500;

/// What is known of an entry at a place; the places of which something is known; the place of the first
/// decision; and the place of the first marked entry that stands behind it.
#[derive(Drop)]
pub struct Implied {
    known: Vec<Option<bool>>,
    places: Vec<usize>,
    first: usize,
    low: usize,
}

impl Implied {
    /// Nothing is known, and there is no room.
    pub fn new(alloc: Global) -> Implied {
        Implied {
            known: Vec::new(alloc),
            places: Vec::new(alloc),
            first: 0,
            low: 0,
        }
    }

    /// Forgets what was known, and takes the memory for what can be known of `entries` entries.
    pub fn make_room(&mut self, entries: usize) -> Result<(), AllocError> {
        'each: while let Some(place) = self.places.pop() {
            if place < self.known.len() {
                self.known[place] = None;
            }
        }
        self.places.reserve(entries)?;
        if self.known.len() < entries {
            self.known.resize(entries, None)?;
        }
        Ok(())
    }

    /// What is known of the entry at a place.
    fn known(&self, place: usize) -> Option<bool> {
        match self.known.get(place) {
            Some(known) => *known,
            None => None,
        }
    }

    /// Notes what was found of the entry at a place, where there is room.
    fn note(&mut self, place: usize, is_implied: bool) {
        if place < self.known.len() && self.places.len() < self.places.capacity() {
            self.known[place] = Some(is_implied);
            self.places.push_reserved(place);
        }
    }

    /// Whether the marked entries imply the entry at a place by its reason, with at most `depth` reasons one
    /// behind the other.
    fn follows(
        &mut self,
        trail: &Trail,
        clauses: &ClauseList,
        marks: &Marks,
        place: usize,
        depth: u32,
    ) -> bool {
        if let Some(known) = self.known(place) {
            return known;
        }
        let Some(reason) = trail.find_reason(place) else {
            return false;
        };
        if depth == 0 {
            return false;
        }
        let mut is_implied = true;
        for literal in clauses.find(reason) {
            let other = trail.find_place(*literal);
            if other == place || other < self.first || marks.has(other) {
                continue;
            }
            if other < self.low || !self.follows(trail, clauses, marks, other, depth - 1) {
                is_implied = false;
                break;
            }
        }
        self.note(place, is_implied);
        is_implied
    }

    /// Finds out of which entries behind `first` the marked ones imply, among the marked places that were
    /// sorted, of which there are `count`, and those that they stand on. Returns the number of places that
    /// are known now, in their order.
    pub fn find(
        &mut self,
        trail: &Trail,
        clauses: &ClauseList,
        marks: &Marks,
        first: usize,
        count: usize,
    ) -> usize {
        self.first = first;
        self.low = marks.sorted_place(0).unwrap_or(first);
        for i in 0..count {
            if let Some(place) = marks.sorted_place(i) {
                self.follows(trail, clauses, marks, place, DEEPEST);
            }
        }
        self.places.sort_unstable();
        self.places.len()
    }

    /// The place with a number among those that are known, where the marked entries imply its entry.
    pub fn implied_place(&self, i: usize) -> Option<usize> {
        let place = *self.places.get(i)?;
        match self.known(place) {
            Some(true) => Some(place),
            _ => None,
        }
    }
}
