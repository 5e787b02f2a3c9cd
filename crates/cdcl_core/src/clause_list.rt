//! The clauses that the solver holds, in one region: their literals lie one after another, and each clause
//! has the span in which they lie. So a clause costs no memory of its own, and the literals of clauses that
//! were learned one after another lie side by side. A clause goes by its place in the list, from 0, and a log
//! speaks of it by the number after its place. Source: the clause arena of Chaff and MiniSat.
ghost use Rattle.std.specs.Prelude.{◌≡◌, ◌<◌, ◌^◌, suc, [], ◌∷◌, ◌++◌, length, slice_index_or, OnOk, OnErr};
ghost use Rattle.cdcl_core.specs.Region.{HasPlace};

use crate::literal::Literal;
use std::alloc::{AllocError, Global};
use std::marker::Model;

/// The most literals that the region can have, and the most clauses, so that half a word holds each place.
const MOST: usize = 4294967295;

/// Where the literals of a clause lie: from `start` to before `end`.
#[derive(Clone, Copy, Drop)]
pub struct Span {
    pub start: u32,
    pub end: u32,
}

/// A list of clauses, whose literals lie in one region.
#[derive(Drop)]
pub struct ClauseList {
    region: Vec<Literal>,
    spans: Vec<Span>,
}

impl Model for ClauseList {
    ghost use Rattle.std.specs.Prelude.{length, vec_capacity};
    ghost use Rattle.cdcl_core.specs.Region.{ClausesValue, clauses_in, places_left, IsRegion};

    ghost Value = { ClausesValue };

    ghost view = { λ c. record {
      list = clauses_in c.spans.items c.region.items;
      literal_room = places_left (vec_capacity c.region) (length c.region.items);
      clause_room = places_left (vec_capacity c.spans) (length c.spans.items);
    } };

    ghost invariant = { λ c. IsRegion c.spans.items c.region.items };
}

impl ClauseList {
    /// The empty list, which takes no memory.
    pub fn new(alloc: Global) -> ClauseList
        ensures { result.list ≡ [] }
    {
        ClauseList {
            region: Vec::new(alloc),
            spans: Vec::new(alloc),
        }
    }

    /// How many clauses there are.
    pub fn len(&self) -> usize
        ensures { result ≡ length self.now.list }
    {
        self.spans.len()
    }

    /// The clause at place `i`, from 0.
    pub fn get(&self, i: usize) -> &[Literal]
        requires { i < length self.now.list }
        ensures { result.now ≡ slice_index_or self.now.list i result.now }
    {
        let Span { start, end } = self.spans[i];
        &self.region[start as usize..end as usize]
    }

    /// The clause at place `i`, from 0, or no literals where there is no such clause.
    pub fn find(&self, i: usize) -> &[Literal] {
        if i < self.spans.len() {
            self.get(i)
        } else {
            &[]
        }
    }

    /// Makes room for a clause of `literals` literals. Returns an error where memory is wanting, or where
    /// half a word holds no further place.
    pub fn reserve(&mut self, literals: usize) -> Result<(), AllocError>
        ensures list { self.new.list ≡ self.old.list }
        ensures room { OnOk result (HasPlace literals self.new) }
    {
        if literals > MOST - self.region.len() || self.spans.len() >= MOST {
            return Err(AllocError);
        }
        self.spans.reserve(1)?;
        self.region.reserve(literals)
    }

    /// Adds a clause at the end, where there is room for it. The call takes no memory.
    pub fn push_reserved(&mut self, clause: &[Literal])
        requires { HasPlace (length clause.now) self.old }
        ensures { self.new.list ≡ self.old.list ++ clause.now ∷ [] }
    {
        let start = self.region.len();
        match self.region.extend_from_slice(clause) {
            Ok(()) => {}
            Err(_) => unreachable!(),
        }
        self.spans.push_reserved(Span {
            start: start as u32,
            end: (start + clause.len()) as u32,
        });
    }

    /// Adds a clause at the end. Where the call returns an error, as [`ClauseList::reserve`] does, the list
    /// stays as it was.
    pub fn push(&mut self, clause: &[Literal]) -> Result<(), AllocError>
        ensures ok { OnOk result (self.new.list ≡ self.old.list ++ clause.now ∷ []) }
        ensures err { OnErr result (self.new.list ≡ self.old.list) }
    {
        self.reserve(clause.len())?;
        self.push_reserved(clause);
        Ok(())
    }
}

/// How many clauses there are.
pub fn count(clauses: &ClauseList) -> u64
    ensures value { result ≡ length clauses.now.list }
    ensures few { length clauses.now.list < 2 ^ 59 }
{
    clauses.spans.len() as u64
}

/// The id by which a log names the clause at a place.
pub fn id_of(clauses: &ClauseList, place: usize) -> u64
    requires { place < length clauses.now.list }
    ensures { result ≡ suc place }
{
    let _places = clauses.len();
    place as u64 + 1
}
