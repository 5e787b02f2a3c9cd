//! The watches: for each literal the clauses that watch it; for each clause the two literals that it watches;
//! and the number of entries of the trail that have been handled.
//!
//! The literals of a clause keep their places, since the log names them in order; so the two that are watched
//! stand beside the clause. A watcher may be stale, where its clause watches the literal no more; a visit
//! takes such a watcher out. Source: Chaff; the blockers are MiniSat's.
ghost use Rattle.std.specs.Prelude.{◌≡◌, ℕ, ◌<◌, ◌^◌, [], ◌∷◌, ◌++◌, length, map, replicate, slice_index_or};
ghost use Rattle.std.specs.Prelude.{slice_set, IfOk, OnOk, OnErr};
ghost use Rattle.std.specs.List.{swap_remove};
ghost use Rattle.cdcl_core.specs.Watched.{index_of};
ghost use Rattle.cdcl_core.specs.Watches.{list_at, watch_at, pair_at, lists_with, watches_with, no_watches};
ghost use Rattle.cdcl_core.specs.WatchRoom.{HasRoomAt};

use crate::literal::Literal;
use std::alloc::{AllocError, Global};
use std::marker::Model;

/// A clause that watches a literal, and one of the clause's literals, the blocker, which may show that the
/// clause is true.
#[derive(Clone, Copy, Drop)]
pub struct Watch {
    pub clause: usize,
    pub blocker: Literal,
    /// The clause is known to have no literals but the watched one and the blocker.
    pub binary: bool,
}

/// The two literals that a clause watches.
#[derive(Clone, Copy, Drop)]
pub struct Pair {
    pub one: Literal,
    pub other: Literal,
}

/// The watchers of each literal; the pair of literals that each clause watches; the place in each clause
/// where the last literal to watch was found; and the number of entries that have been handled.
#[derive(Drop)]
pub struct Watches {
    lists: Vec<Vec<Watch>>,
    pairs: Vec<Pair>,
    found: Vec<u32>,
    handled: usize,
}

impl Model for Watches {
    ghost use Rattle.std.specs.Prelude.{map};
    ghost use Rattle.cdcl_core.specs.Watches.{WatchesValue};

    ghost Value = { WatchesValue };

    ghost view = { λ w. record {
      lists = map (λ v. v.items) w.lists.items;
      pairs = w.pairs.items;
      handled = w.handled;
    } };
}

/// `lists` empty lists.
fn no_watchers(alloc: Global, lists: usize) -> Result<Vec<Vec<Watch>>, AllocError>
    ensures { IfOk result (λ made. map (λ v. v.items) made.items ≡ replicate lists []) }
{
    let mut made = Vec::new(alloc);
    for _list in 0..lists {
        made.push(Vec::new(alloc))?;
    }
    Ok(made)
}

/// Makes room for two more watchers in a list.
fn make_room(lists: &mut Vec<Vec<Watch>>, at: usize) -> Result<(), AllocError>
    requires { at < length lists.old.items }
    ensures items { map (λ v. v.items) lists.new.items ≡ map (λ v. v.items) lists.old.items }
    ensures room { OnOk result (HasRoomAt lists.new.items 2 at) }
    ensures kept { (k : ℕ) → HasRoomAt lists.old.items 2 k → HasRoomAt lists.new.items 2 k }
{
    lists[at].reserve(2)
}

/// Adds a watcher to a list that has room for it.
fn push_reserved(lists: &mut Vec<Vec<Watch>>, at: usize, watch: Watch)
    requires within { at < length lists.old.items }
    requires room { HasRoomAt lists.old.items 1 at }
    ensures items { map (λ v. v.items) lists.new.items
        ≡ slice_set (map (λ v. v.items) lists.old.items) at
        (slice_index_or (map (λ v. v.items) lists.old.items) at [] ++ watch ∷ []) }
    ensures kept { (k : ℕ) → HasRoomAt lists.old.items 2 k → HasRoomAt lists.new.items 1 k }
{
    lists[at].push_reserved(watch);
}

/// Sets the found place of a clause that has none yet to its first place.
fn add_found(found: &mut Vec<u32>, clause: usize) -> Result<(), AllocError> {
    if found.len() <= clause {
        found.push(0)?;
    }
    Ok(())
}

impl Watches {
    /// No clause is watched yet.
    pub fn new(alloc: Global, variables: u32) -> Result<Watches, AllocError>
        requires { variables < 2 ^ 31 }
        ensures { IfOk result (λ watches. watches ≡ no_watches variables) }
    {
        Ok(Watches {
            lists: no_watchers(alloc, variables as usize * 2 + 2)?,
            pairs: Vec::new(alloc),
            found: Vec::new(alloc),
            handled: 0,
        })
    }

    /// How many watchers a literal has.
    pub fn count(&self, literal: Literal) -> usize
        requires { index_of literal < length self.now.lists }
        ensures { result ≡ length (list_at self.now.lists literal) }
    {
        self.lists[literal.index()].len()
    }

    /// Watcher `at` of the literal, from 0.
    pub fn get(&self, literal: Literal, at: usize) -> Watch
        requires literal { index_of literal < length self.now.lists }
        requires at { at < length (list_at self.now.lists literal) }
        ensures { result ≡ watch_at (list_at self.now.lists literal) at }
    {
        self.lists[literal.index()][at]
    }

    /// Adds a watcher.
    pub fn push(&mut self, literal: Literal, watch: Watch) -> Result<(), AllocError>
        requires { index_of literal < length self.old.lists }
        ensures { OnOk result (self.new
            ≡ record self.old { lists = lists_with self.old.lists literal watch }) }
    {
        self.lists[literal.index()].push(watch)?;
        Ok(())
    }

    /// Takes a watcher out; the last one takes its place.
    pub fn remove(&mut self, literal: Literal, at: usize)
        requires literal { index_of literal < length self.old.lists }
        requires at { at < length (list_at self.old.lists literal) }
        ensures { self.new ≡ record self.old {
          lists = slice_set self.old.lists (index_of literal)
              (swap_remove (list_at self.old.lists literal) at
              (watch_at (list_at self.old.lists literal) at));
        } }
    {
        self.lists[literal.index()].swap_remove(at);
    }

    /// Puts another watcher in the place of one.
    pub fn set(&mut self, literal: Literal, at: usize, watch: Watch)
        requires literal { index_of literal < length self.old.lists }
        requires at { at < length (list_at self.old.lists literal) }
        ensures { self.new ≡ record self.old {
          lists = slice_set self.old.lists (index_of literal)
              (slice_set (list_at self.old.lists literal) at watch);
        } }
    {
        self.lists[literal.index()][at] = watch;
    }

    /// The two literals that a clause watches.
    pub fn pair(&self, clause: usize) -> Pair
        requires { clause < length self.now.pairs }
        ensures { result ≡ pair_at self.now.pairs clause }
    {
        self.pairs[clause]
    }

    /// Sets the two literals that a clause watches.
    pub fn set_pair(&mut self, clause: usize, pair: Pair)
        requires { clause < length self.old.pairs }
        ensures { self.new ≡ record self.old { pairs = slice_set self.old.pairs clause pair } }
    {
        self.pairs[clause] = pair;
    }

    /// The place in a clause where the last literal to watch was found. The search for the next one begins
    /// there, so that literals that are often false are left behind. No statement depends on this place.
    pub fn found(&self, clause: usize) -> usize {
        match self.found.get(clause) {
            Some(place) => *place as usize,
            None => 0,
        }
    }

    /// Notes the place at which a literal to watch was found.
    pub fn set_found(&mut self, clause: usize, place: usize)
        ensures { self.new ≡ self.old }
    {
        if clause < self.found.len() {
            self.found[clause] = u32::try_from(place).unwrap_or(0);
        }
    }

    /// Lets the next clause watch these two literals; `binary` says that it has no others. The memory is
    /// taken before anything changes.
    pub fn add(&mut self, one: Literal, other: Literal, binary: bool) -> Result<(), AllocError>
        requires one { index_of one < length self.old.lists }
        requires other { index_of other < length self.old.lists }
        ensures ok { OnOk result (self.new ≡ watches_with self.old one other binary) }
        ensures err { OnErr result (self.new ≡ self.old) }
    {
        add_found(&mut self.found, self.pairs.len())?;
        make_room(&mut self.lists, one.index())?;
        make_room(&mut self.lists, other.index())?;
        self.pairs.reserve(1)?;
        let clause = self.pairs.len();
        let watch = Watch {
            clause,
            blocker: other,
            binary,
        };
        push_reserved(&mut self.lists, one.index(), watch);
        let watch = Watch {
            clause,
            blocker: one,
            binary,
        };
        push_reserved(&mut self.lists, other.index(), watch);
        self.pairs.push_reserved(Pair { one, other });
        Ok(())
    }

    /// How many entries of the trail have been handled.
    pub fn handled(&self) -> usize
        ensures { result ≡ self.now.handled }
    {
        self.handled
    }

    /// Notes that `handled` entries of the trail have been handled.
    pub fn set_handled(&mut self, handled: usize)
        ensures { self.new ≡ record self.old { handled = handled } }
    {
        self.handled = handled;
    }
}
