//! A list of one kind of item, in the order in which they were pushed.
ghost use Rattle.std.specs.Prelude.{◌≡◌, ℕ, ◌<◌, ◌≤◌, ◌==◌, [], ◌∷◌, ◌++◌, length, take, slice_index_or};
ghost use Rattle.std.specs.Prelude.{slice_set, IfOk, OnOk, OnErr};

use crate::name::Name;
use crate::row::Row;
use crate::table::Table;
use std::alloc::{AllocError, Global};
use std::marker::Model;
use std::mem;

/// The number of an input or a table: the inputs first, then the tables.
pub type Signal = u32;

/// Pins of a table, or outputs of a net.
pub type SignalList = Items<Signal>;

/// Names, of inputs or of outputs.
pub type NameList = Items<Name>;

/// The rows of a table.
pub type RowList = Items<Row>;

/// The tables of a net, in the order of their numbers.
pub type TableList = Items<Table>;

/// A vector of truth values.
pub type Bits = Items<bool>;

/// What can be copied, given memory.
pub trait Duplicate: Drop {
    fn duplicate(&self) -> Result<Self, AllocError>
        ensures { IfOk result (λ x. x ≡ self.now) };
}

impl Duplicate for u32 {
    fn duplicate(&self) -> Result<u32, AllocError> {
        Ok(*self)
    }
}

impl Duplicate for u64 {
    fn duplicate(&self) -> Result<u64, AllocError> {
        Ok(*self)
    }
}

impl Duplicate for bool {
    fn duplicate(&self) -> Result<bool, AllocError> {
        Ok(*self)
    }
}

/// A list that its callers see as the list of its items.
#[derive(Drop)]
pub struct Items<T> {
    items: Vec<T>,
}

impl<T> Model for Items<T> {
    ghost use Rattle.std.specs.Prelude.{List};

    ghost Value = { List T };

    ghost view = { λ a. a.items.items };
}

impl<T> Items<T> {
    /// The empty list, which takes no memory.
    pub fn new(alloc: Global) -> Self
        ensures { result ≡ [] }
    {
        Items {
            items: Vec::new(alloc),
        }
    }

    /// How many items there are.
    pub fn len(&self) -> usize
        ensures { result ≡ length self.now }
    {
        self.items.len()
    }

    /// Whether there are no items.
    pub fn is_empty(&self) -> bool
        ensures { result ≡ (length self.now == 0) }
    {
        self.items.is_empty()
    }

    /// The item at index `i`, from 0.
    pub fn get(&self, i: usize) -> &T
        requires { i < length self.now }
        ensures { result.now ≡ slice_index_or self.now i result.now }
    {
        &self.items[i]
    }

    /// The items.
    pub fn as_slice(&self) -> &[T]
        ensures { result.now ≡ self.now }
    {
        self.items.as_slice()
    }

    /// Puts an item in the place of item `i`, from 0, and returns the item that stood there. The call takes
    /// no memory.
    pub fn replace(&mut self, i: usize, item: T) -> T
        requires { i < length self.old }
        ensures taken { result ≡ slice_index_or self.old i result }
        ensures put { self.new ≡ slice_set self.old i item }
    {
        mem::replace(&mut self.items[i], item)
    }
}

impl<T: Drop> Items<T> {
    /// Adds an item at the end. Where memory is wanting, the item is dropped.
    pub fn push(&mut self, item: T) -> Result<(), AllocError>
        ensures ok { OnOk result (self.new ≡ self.old ++ item ∷ []) }
        ensures err { OnErr result (self.new ≡ self.old) }
    {
        self.items.push(item)?;
        Ok(())
    }
}

impl<T: Duplicate> Items<T> {
    /// Copies of these items as a list.
    pub fn from_slice(alloc: Global, items: &[T]) -> Result<Items<T>, AllocError>
        ensures { IfOk result (λ list. list ≡ items.now) }
    {
        let mut list = Items::new(alloc);
        list.push_copies(items)?;
        Ok(list)
    }

    /// Adds copies of these items at the end. Where memory is wanting, copies of the first of them were
    /// added.
    pub fn push_copies(&mut self, more: &[T]) -> Result<(), AllocError>
        ensures ok { OnOk result (self.new ≡ self.old ++ more.now) }
        ensures err { OnErr result
            ((n : ℕ) × (n ≤ length more.now) × (self.new ≡ self.old ++ take n more.now)) }
    {
        self.items.reserve(more.len())?;
        for item in more {
            self.push(item.duplicate()?)?;
        }
        Ok(())
    }

    /// An equal list, on the same allocator.
    pub fn copy(&self) -> Result<Items<T>, AllocError>
        ensures { IfOk result (λ c. c ≡ self.now) }
    {
        Items::from_slice(*self.items.allocator(), &self.items)
    }

    /// The list with another item in the place of item `i`. The new item is not copied.
    pub fn copy_with(&self, i: usize, item: T) -> Result<Items<T>, AllocError>
        requires { i < length self.now }
        ensures { IfOk result (λ c. c ≡ slice_set self.now i item) }
    {
        let mut copy = Items::new(*self.items.allocator());
        copy.push_copies(&self.items[..i])?;
        copy.push(item)?;
        copy.push_copies(&self.items[i + 1..])?;
        Ok(copy)
    }
}
