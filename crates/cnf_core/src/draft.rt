//! Lists that can be taken back.
ghost use Rattle.std.specs.Prelude.{◌≡◌, [], ◌∷◌, ◌++◌, length, take, OnOk, OnErr};
ghost use Rattle.cnf_core.specs.Drafts.{whole};

use std::alloc::{AllocError, Global};
use std::marker::Model;

/// The list at hand, behind the lists that were begun before it since the last `settle`. Until the next
/// `settle` all of these are kept, so that an earlier list at hand can be taken back.
#[derive(Drop)]
pub struct Draft<T> {
    items: Vec<T>,
    /// Where the list at hand begins.
    first: usize,
}

impl<T> Model for Draft<T> {
    ghost use Rattle.std.specs.Prelude.{◌≤◌, length, take, drop};
    ghost use Rattle.cnf_core.specs.Drafts.{DraftValue};

    ghost Value = { DraftValue T };

    ghost view = { λ a. record {
      before = take a.first a.items.items;
      at_hand = drop a.first a.items.items;
    } };

    ghost invariant = { λ a. a.first ≤ length a.items.items };
}

impl<T> Draft<T> {
    /// No lists. The call takes no memory.
    pub fn new(alloc: Global) -> Self
        ensures { result ≡ record { before = []; at_hand = [] } }
    {
        Draft {
            items: Vec::new(alloc),
            first: 0,
        }
    }

    /// The allocator of the lists.
    pub fn allocator(&self) -> &Global {
        self.items.allocator()
    }

    /// How many items the list at hand has.
    pub fn len(&self) -> usize
        ensures { result ≡ length self.now.at_hand }
    {
        self.items.len() - self.first
    }

    /// The items of the list at hand.
    pub fn as_slice(&self) -> &[T]
        ensures { result.now ≡ self.now.at_hand }
    {
        &self.items[self.first..]
    }

    /// Begins an empty list.
    pub fn begin(&mut self)
        ensures { self.new ≡ record { before = whole self.old; at_hand = [] } }
    {
        self.first = self.items.len();
    }
}

impl<T: Drop> Draft<T> {
    /// Adds an item at the end.
    pub fn push(&mut self, item: T) -> Result<(), AllocError>
        ensures ok { OnOk result (self.new ≡ record self.old { at_hand = self.old.at_hand ++ item ∷ [] }) }
        ensures err { OnErr result (self.new ≡ self.old) }
    {
        self.items.push(item)?;
        Ok(())
    }

    /// Forgets the lists before the list at hand, in time linear in all of them; where there are none, in
    /// constant time.
    pub fn settle(&mut self)
        ensures { self.new ≡ record { before = []; at_hand = self.old.at_hand } }
    {
        if self.first == 0 {
            return;
        }
        let len = self.items.len() - self.first;
        self.items.rotate_left(self.first);
        self.items.truncate(len);
        self.first = 0;
    }

    /// Makes the first `len` items of all lists the list at hand again, and forgets the others.
    pub fn take_back(&mut self, len: usize)
        ensures { self.new ≡ record { before = []; at_hand = take len (whole self.old) } }
    {
        self.items.truncate(len);
        self.first = 0;
    }
}
