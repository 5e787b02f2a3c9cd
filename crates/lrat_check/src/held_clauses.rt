//! The clauses that are held, by their ids.
ghost use Rattle.std.specs.Prelude.{◌≡◌, ◌<◌, length, slice_index_or, slice_set, filter, is_some, OnOk};
ghost use Rattle.std.specs.Prelude.{OnErr, option_map};
ghost use Rattle.std.specs.List.{AllPairs};
ghost use Rattle.std.specs.FinMap as map;
ghost use Rattle.proof_semantics.specs.Logs.{removed_from};
ghost use Rattle.lrat_check.specs.HeldEntries.{nothing_held, without_clause, IsBefore, IsPlaceOf};
ghost use Rattle.lrat_check.specs.HeldEntries.{held_entries};

use proof_parts::clause::Lits;
use std::alloc::{AllocError, Global};
use std::marker::Model;

/// A clause under its id, or none where it was removed.
#[derive(Drop)]
pub struct Entry {
    id: u64,
    clause: Option<Lits>,
}

/// The place of the id, found by binary search.
fn search(entries: &[Entry], id: u64) -> Option<usize>
    requires { AllPairs IsBefore entries.now }
    ensures { IsPlaceOf entries.now id result }
{
    let mut low = 0;
    let mut high = entries.len();
    'halves: while low < high {
        let middle = low + (high - low) / 2;
        let found = entries[middle].id;
        if found == id {
            return Some(middle);
        }
        if found < id {
            low = middle + 1;
        } else {
            high = middle;
        }
    }
    None
}

/// The place of the id. As long as ids follow one another without a gap, an id stands at the place of the
/// number before it, so that place is looked at first.
#[inline(always)]
fn place_of(entries: &[Entry], id: u64) -> Option<usize>
    requires { AllPairs IsBefore entries.now }
    ensures { IsPlaceOf entries.now id result }
{
    let guess = id.saturating_sub(1) as usize;
    if guess < entries.len() && entries[guess].id == id {
        return Some(guess);
    }
    search(entries, id)
}

/// Ends the holding of the clause at this place.
fn end_at(entries: &mut Vec<Entry>, place: usize)
    requires { place < length entries.old.items }
    ensures { (d : Entry) → entries.new.items
        ≡ slice_set entries.old.items place (without_clause (slice_index_or entries.old.items place d)) }
{
    entries[place].clause = None;
}

/// Drops the entries without a clause.
fn drop_ended(entries: &mut Vec<Entry>)
    ensures { entries.new.items ≡ filter (λ e. is_some e.clause) entries.old.items }
{
    entries.retain(|entry| entry.clause.is_some());
}

/// Clauses by their ids, which rise. Where a clause was removed its id is left, until as many such ids are
/// left as clauses are held.
#[derive(Drop)]
pub struct HeldClauses {
    entries: Vec<Entry>,
    removed: usize,
    last: u64,
}

impl Model for HeldClauses {
    ghost use Rattle.lrat_check.specs.HeldEntries.{HeldValue, held_code, held_in, AreInOrder};

    ghost Value = { HeldValue };

    ghost coded = { held_code };

    ghost view = { λ a. record { held = held_in a.entries.items; last = a.last } };

    ghost invariant = { λ a. AreInOrder a.entries.items a.last };
}

impl HeldClauses {
    /// No clause. The call takes no memory.
    pub fn new(alloc: Global) -> HeldClauses
        ensures { result ≡ nothing_held }
    {
        HeldClauses {
            entries: Vec::new(alloc),
            removed: 0,
            last: 0,
        }
    }

    /// The greatest id so far.
    pub fn last(&self) -> u64
        ensures { result ≡ self.now.last }
    {
        self.last
    }

    /// The clause of an id.
    #[inline(always)]
    pub fn get(&self, id: u64) -> Option<&Lits>
        ensures { option_map (λ clause. clause.now) result ≡ map.get self.now.held id }
    {
        match place_of(&self.entries, id) {
            Some(place) => self.entries[place].clause.as_ref(),
            None => None,
        }
    }

    /// Drops the ids that are left of removed clauses, where they are more than the held clauses.
    fn sweep(&mut self)
        ensures { self.new ≡ self.old }
    {
        if self.removed > self.entries.len() / 2 {
            drop_ended(&mut self.entries);
            self.removed = 0;
        }
    }

    /// Holds a clause under a new id.
    pub fn insert(&mut self, id: u64, clause: Lits) -> Result<(), AllocError>
        requires { self.old.last < id }
        ensures ok { OnOk result
            (self.new ≡ record { held = map.insert self.old.held id clause; last = id }) }
        ensures err { OnErr result (self.new ≡ self.old) }
    {
        self.sweep();
        self.entries.push(Entry {
            id,
            clause: Some(clause),
        })?;
        self.last = id;
        Ok(())
    }

    /// Ends the holding of the clause with an id. The call takes no memory.
    fn remove(&mut self, id: u64)
        ensures { self.new ≡ record self.old { held = map.remove self.old.held id } }
    {
        match place_of(&self.entries, id) {
            Some(place) => {
                end_at(&mut self.entries, place);
                self.removed = self.removed.saturating_add(1);
            }
            None => {}
        }
    }

    /// Ends the holding of the clauses with these ids. The call takes no memory.
    pub fn remove_all(&mut self, ids: &[u64])
        ensures { self.new ≡ record self.old { held = removed_from self.old.held ids.now } }
    {
        for id in ids {
            self.remove(*id);
        }
    }
}
