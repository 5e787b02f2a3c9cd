//! Keys that differ. Those that add and find keys choose them as they please: no choice makes one slow.
ghost use Rattle.std.specs.Prelude.{◌≡◌, not, [], length, position, IfOk, OnOk, OnErr};
ghost use Rattle.std.specs.List.{list_any};
ghost use Rattle.std.specs.BTreeMap.{get};
ghost use Rattle.numbered_keys.specs.Keys.{with_key};

use std::alloc::{AllocError, Global};
use std::collections::BTreeMap;
use std::marker::Model;

/// Keys that differ, in the order in which they were added. One is added or found by comparisons with some of
/// them, about as many as the logarithm of their number.
#[derive(Drop)]
pub struct NumberedKeys<K: Ord> {
    keys: Vec<K>,
    places: BTreeMap<K, usize>,
}

impl<K: Ord> Model for NumberedKeys<K> {
    ghost use Rattle.std.specs.Prelude.{List, ◌≡◌, position};
    ghost use Rattle.std.specs.BTreeMap.{get};

    ghost Value = { List K };

    ghost view = { λ a. a.keys.items };

    ghost invariant = { λ a. (key : K) → get K.cmp a.places key ≡ position (K.eq key) a.keys.items };
}

impl<K: Ord> NumberedKeys<K> {
    /// No keys. It takes no memory.
    pub fn new(alloc: Global) -> NumberedKeys<K>
        ensures { result ≡ [] }
    {
        NumberedKeys {
            keys: Vec::new(alloc),
            places: BTreeMap::new(alloc),
        }
    }

    /// How many keys there are.
    pub fn len(&self) -> usize
        ensures { result ≡ length self.now }
    {
        self.keys.len()
    }

    /// The keys, in the order in which they were added.
    pub fn as_slice(&self) -> &[K]
        ensures { result.now ≡ self.now }
    {
        &self.keys
    }

    /// What gives the memory.
    pub fn allocator(&self) -> &Global {
        self.keys.allocator()
    }

    /// Whether the key was added.
    pub fn contains(&self, key: &K) -> bool
        ensures { result ≡ list_any (K.eq key.now) self.now }
    {
        self.places.contains_key(key)
    }

    /// Where the key stands, from 0.
    pub fn place(&self, key: &K) -> Option<usize>
        ensures { result ≡ position (K.eq key.now) self.now }
    {
        self.places.get(key).copied()
    }

    /// The place of each key, from 0.
    pub fn places(&self) -> &BTreeMap<K, usize>
        ensures { (key : K) → get K.cmp result.now key ≡ position (K.eq key) self.now }
    {
        &self.places
    }
}

impl<K: Ord + Copy> NumberedKeys<K> {
    /// Adds a key, if it is new. Without memory for it nothing changes.
    pub fn add(&mut self, key: K) -> Result<bool, AllocError>
        ensures new { IfOk result (λ b. b ≡ not (list_any (K.eq key) self.old)) }
        ensures keys { OnOk result (self.new ≡ with_key K.eq self.old key) }
        ensures err { OnErr result (self.new ≡ self.old) }
    {
        if self.contains(&key) {
            return Ok(false);
        }
        self.keys.reserve(1)?;
        self.places.insert(key, self.keys.len())?;
        self.keys.push(key)?;
        Ok(true)
    }
}
