//! A flag for each table, raised where a rule may apply.
ghost use Rattle.std.specs.Prelude.{◌≡◌, ◌≢◌, ◌<◌, ◌≤◌, ◌^◌, ◌+◌, ℕ, true, false, not, length, replicate};
ghost use Rattle.std.specs.Prelude.{slice_index_or, slice_set, All, IfOk};
ghost use Rattle.std.specs.List.{list_any};
ghost use Rattle.semantics.specs.Net.{table_at};
ghost use Rattle.chain_semantics.specs.TidyRules.{has};
ghost use Rattle.net_tidy.specs.Flags.{IsDown, IsLeft};

use crate::tables::Tables;
use net_core::items::Signal;
use std::alloc::{AllocError, Global};
use std::marker::Model;

/// The flags, in the order of the tables. No flag before `first` is raised, so nothing before it is looked at
/// again.
#[derive(Drop)]
pub(crate) struct Flags {
    flags: Vec<bool>,
    first: usize,
}

impl Model for Flags {
    ghost use Rattle.std.specs.Prelude.{List, Bool, ℕ, ◌<◌, ◌≤◌, length};
    ghost use Rattle.net_tidy.specs.Flags.{IsDown};

    ghost Value = { List Bool };

    ghost view = { λ a. a.flags.items };

    ghost invariant = { λ a. (a.first ≤ length a.flags.items)
        × ((j : ℕ) → j < a.first → IsDown a.flags.items j) };
}

impl Flags {
    /// `count` flags, all raised.
    pub(crate) fn raised(alloc: Global, count: usize) -> Result<Flags, AllocError>
        ensures { IfOk result (λ f. f ≡ replicate count true) }
    {
        let flags = vec![in alloc; true; count]?;
        Ok(Flags { flags, first: 0 })
    }

    /// The first place, from `from` on, whose flag is raised, or the end.
    pub(crate) fn next(&self, from: usize) -> usize
        requires { from ≤ length self.now }
        ensures from { from ≤ result }
        ensures within { result ≤ length self.now }
        ensures down { (j : ℕ) → from ≤ j → j < result → IsDown self.now j }
    {
        for i in from..self.flags.len() {
            if self.flags[i] {
                return i;
            }
        }
        self.flags.len()
    }

    /// A place before which no flag is raised.
    pub(crate) fn first(&self) -> usize
        ensures within { result ≤ length self.now }
        ensures down { (j : ℕ) → j < result → IsDown self.now j }
    {
        self.first
    }

    /// Whether the flag of table `t` is raised. Where it is not and `first` is `t`, `first` moves past `t`.
    pub(crate) fn look(&mut self, t: u32) -> bool
        requires { t < length self.old }
        ensures raised { result ≡ slice_index_or self.old t true }
        ensures same { self.new ≡ self.old }
    {
        let raised = self.flags[t as usize];
        if !raised && self.first == t as usize {
            self.first += 1;
        }
        raised
    }

    /// Whether some flag is raised.
    pub(crate) fn has_raised(&self) -> bool
        ensures { result ≡ list_any (λ flag. flag) self.now }
    {
        self.flags.iter().any(|flag| *flag)
    }

    pub(crate) fn take_down(&mut self, t: u32)
        requires { t < length self.old }
        ensures { self.new ≡ slice_set self.old t false }
    {
        self.flags[t as usize] = false;
    }

    pub(crate) fn raise(&mut self, t: u32)
        requires { t < length self.old }
        ensures { self.new ≡ slice_set self.old t true }
    {
        self.raise_at(t as usize);
    }

    /// Raises the flag at a place.
    fn raise_at(&mut self, place: usize)
        requires { place < length self.old }
        ensures { self.new ≡ slice_set self.old place true }
    {
        self.flags[place] = true;
        self.first = self.first.min(place);
    }

    /// Raises the flag at a place, if `asked`.
    pub(crate) fn raise_if(&mut self, place: usize, asked: bool)
        requires { place < length self.old }
        ensures count { length self.new ≡ length self.old }
        ensures others { (j : ℕ) → IsDown self.new j → IsDown self.old j × (j ≡ place → asked ≡ false) }
    {
        if asked {
            self.raise_at(place);
        }
    }

    /// Raises the flag of a signal, if it is a table.
    pub(crate) fn raise_signal(&mut self, inputs: u32, signal: Signal)
        requires { signal < inputs + length self.old }
        ensures count { length self.new ≡ length self.old }
        ensures others { (j : ℕ) → IsDown self.new j → IsDown self.old j × (inputs + j ≢ signal) }
    {
        if inputs <= signal {
            self.raise(signal - inputs);
        }
    }

    /// Raises the flags of the tables among these signals.
    pub(crate) fn raise_signals(&mut self, inputs: u32, signals: &[Signal])
        requires { All (λ s. s < inputs + length self.old) signals.now }
        ensures count { length self.new ≡ length self.old }
        ensures others { (j : ℕ) → IsDown self.new j
            → IsDown self.old j × (has signals.now (inputs + j) ≡ false) }
    {
        for signal in signals {
            self.raise_signal(inputs, *signal);
        }
    }

    /// Raises the flags at these places, where there are any.
    pub(crate) fn raise_places(&mut self, places: &[u32])
        ensures count { length self.new ≡ length self.old }
        ensures others { (j : ℕ) → IsDown self.new j → IsDown self.old j × (has places.now j ≡ false) }
    {
        for place in places {
            self.raise_within(*place as usize);
        }
    }

    /// Raises the flag at a place, if there is such a place.
    fn raise_within(&mut self, place: usize)
        ensures count { length self.new ≡ length self.old }
        ensures others { (j : ℕ) → IsDown self.new j → IsDown self.old j × (j ≢ place) }
    {
        if place < self.flags.len() {
            self.raise_at(place);
        }
    }

    /// Raises the flag of a table that was edited and, where the table has no pins, the flags of the tables
    /// that read it.
    pub(crate) fn raise_edited(&mut self, inputs: u32, tables: &Tables, t: u32)
        requires within { t < length tables.now }
        requires count { length self.old ≡ length tables.now }
        requires few { inputs + length tables.now < 2 ^ 31 }
        ensures count { length self.new ≡ length self.old }
        ensures others { (j : ℕ) → j < length tables.now → IsDown self.new j
            → IsLeft inputs tables.now t self.old j }
    {
        self.raise(t);
        if tables.as_slice()[t as usize].pins().is_empty() {
            self.raise_places(tables.readers(inputs + t));
        }
    }
}
