//! Which tables read each signal, by their places. A place may stay listed after its table has ceased to read
//! the signal.
ghost use Rattle.std.specs.Prelude.{◌≡◌, ◌≢◌, ◌<◌, ◌-◌, ◌++◌, ◌∷◌, [], ℕ, true, length, take, slice_set, All};
ghost use Rattle.std.specs.Prelude.{MatchOption, IfOk, OnOk, OnErr};
ghost use Rattle.std.specs.List.{filter};
ghost use Rattle.semantics.specs.Net.{table_at};
ghost use Rattle.chain_semantics.specs.TidyRules.{has};
ghost use Rattle.net_tidy.specs.Readers.{list_at, IsLast, IsWider};

use crate::table_draft::TableDraft;
use net_core::items::Signal;
use std::alloc::{AllocError, Global};
use std::marker::Model;
use std::mem;

/// A list of places of tables.
#[derive(Drop)]
struct Places {
    places: Vec<u32>,
}

impl Model for Places {
    ghost use Rattle.std.specs.Prelude.{List, ℕ};

    ghost Value = { List ℕ };

    ghost view = { λ a. a.places.items };
}

/// Whether the table at a place reads a signal.
pub(crate) fn reads_at(tables: &[TableDraft], place: u32, s: Signal) -> bool
    ensures { result ≡ has (table_at tables.now place).pins s }
{
    match tables.get(place as usize) {
        Some(table) => table.reads(s),
        None => false,
    }
}

impl Places {
    /// The empty list, which takes no memory.
    fn new(alloc: Global) -> Places
        ensures { result ≡ [] }
    {
        Places {
            places: Vec::new(alloc),
        }
    }

    fn as_slice(&self) -> &[u32]
        ensures { result.now ≡ self.now }
    {
        self.places.as_slice()
    }

    /// Adds a place at the end.
    fn push(&mut self, place: u32) -> Result<(), AllocError>
        ensures ok { OnOk result (self.new ≡ self.old ++ place ∷ []) }
        ensures err { OnErr result (self.new ≡ self.old) }
    {
        self.places.push(place)?;
        Ok(())
    }

    /// Adds places at the end. Where there is no memory, none is added.
    fn extend(&mut self, places: &[u32]) -> Result<(), AllocError>
        ensures ok { OnOk result (self.new ≡ self.old ++ places.now) }
        ensures err { OnErr result (self.new ≡ self.old) }
    {
        self.places.extend_from_slice(places)
    }

    /// Takes out the places of tables that do not read a signal.
    fn keep_readers(&mut self, tables: &[TableDraft], s: Signal)
        ensures { self.new ≡ filter (λ place. has (table_at tables.now place).pins s) self.old }
    {
        self.places.retain(|place| reads_at(tables, *place, s));
    }

    /// Takes out the last place.
    fn pop(&mut self)
        ensures { self.new ≡ take (length self.old - 1) self.old }
    {
        self.places.pop();
    }

    fn clear(&mut self)
        ensures { self.new ≡ [] }
    {
        self.places.clear();
    }
}

/// For each signal the places of the tables that read it, and possibly of others.
#[derive(Drop)]
pub(crate) struct Readers {
    lists: Vec<Places>,
}

impl Model for Readers {
    ghost use Rattle.std.specs.Prelude.{List, ℕ};

    ghost Value = { List (List ℕ) };

    ghost view = { λ a. a.lists.items };
}

impl Readers {
    /// `count` empty lists.
    pub(crate) fn empty(alloc: Global, count: usize) -> Result<Readers, AllocError>
        ensures { IfOk result (λ r. length r ≡ count) }
    {
        let mut lists = Vec::new(alloc);
        for _ in 0..count {
            lists.push(Places::new(alloc))?;
        }
        Ok(Readers { lists })
    }

    /// The places that are listed for a signal.
    pub(crate) fn of(&self, s: Signal) -> &[u32]
        ensures { result.now ≡ list_at self.now s }
    {
        match self.lists.get(s as usize) {
            Some(places) => places.as_slice(),
            None => &[],
        }
    }

    /// The last place that is listed for a signal.
    pub(crate) fn last(&self, s: Signal) -> Option<u32>
        ensures { MatchOption result (length (list_at self.now s) ≡ 0) (IsLast (list_at self.now s)) }
    {
        let places = self.of(s);
        if places.is_empty() {
            return None;
        }
        Some(places[places.len() - 1])
    }

    /// Adds a place to the list of a signal.
    fn add(&mut self, s: Signal, place: u32) -> Result<(), AllocError>
        requires { s < length self.old }
        ensures ok { OnOk result (self.new ≡ slice_set self.old s (list_at self.old s ++ place ∷ [])) }
    {
        self.lists[s as usize].push(place)
    }

    /// Adds a place to the list of each of these signals.
    pub(crate) fn add_each(&mut self, signals: &[Signal], place: u32) -> Result<(), AllocError>
        requires { All (λ s. s < length self.old) signals.now }
        ensures count { OnOk result (length self.new ≡ length self.old) }
        ensures wider { OnOk result (IsWider self.old self.new) }
        ensures listed { OnOk result
            ((s : ℕ) → has signals.now s ≡ true → has (list_at self.new s) place ≡ true) }
    {
        for signal in signals {
            self.add(*signal, place)?;
        }
        Ok(())
    }

    /// Adds the places in the list of one signal to the list of another.
    pub(crate) fn share(&mut self, from: Signal, to: Signal) -> Result<(), AllocError>
        requires from { from < length self.old }
        requires to { to < length self.old }
        requires differ { from ≢ to }
        ensures ok { OnOk result
            (self.new ≡ slice_set self.old to (list_at self.old to ++ list_at self.old from)) }
        ensures err { OnErr result (self.new ≡ self.old) }
    {
        let alloc = *self.lists.allocator();
        let places = mem::replace(&mut self.lists[from as usize], Places::new(alloc));
        let done = self.lists[to as usize].extend(places.as_slice());
        self.lists[from as usize] = places;
        done
    }

    /// Takes out of a signal's list the places of tables that do not read it.
    pub(crate) fn keep_readers(&mut self, tables: &[TableDraft], s: Signal)
        requires { s < length self.old }
        ensures { self.new
            ≡ slice_set self.old s (filter (λ place. has (table_at tables.now place).pins s)
            (list_at self.old s)) }
    {
        self.lists[s as usize].keep_readers(tables, s);
    }

    /// Takes out the last place of a signal's list.
    pub(crate) fn pop(&mut self, s: Signal)
        requires { s < length self.old }
        ensures { self.new ≡ slice_set self.old s
            (take (length (list_at self.old s) - 1) (list_at self.old s)) }
    {
        self.lists[s as usize].pop();
    }

    /// Empties a signal's list.
    pub(crate) fn clear(&mut self, s: Signal)
        requires { s < length self.old }
        ensures { self.new ≡ slice_set self.old s [] }
    {
        self.lists[s as usize].clear();
    }
}
