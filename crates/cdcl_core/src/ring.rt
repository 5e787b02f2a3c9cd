//! The ring of the variables that are decided; the variable that was moved to the front last stands before
//! the others.
//!
//! Each variable has a stamp, and the stamps fall from the front on. The ring remembers where the search for
//! an open variable begins: the variables before that place have values. So a decision does not begin at the
//! front each time. Source: the queue of CaDiCaL, after Siege.
ghost use Rattle.std.specs.Prelude.{◌≡◌, ◌+◌, ◌<◌, ◌^◌, true, length, All, IfOk};
ghost use Rattle.cdcl_core.specs.Links.{AreLinks};

use std::alloc::{AllocError, Global};
use std::marker::Model;

/// Numbers from 1 in a ring, and 0, which stands before the first and after the last.
#[derive(Drop)]
pub struct Ring {
    after: Vec<u32>,
    before: Vec<u32>,
    stamps: Vec<u64>,
    search: u32,
    last_stamp: u64,
}

impl Model for Ring {
    ghost use Rattle.std.specs.Prelude.{ℕ, length};
    ghost use Rattle.cdcl_core.specs.Links.{AreLinks};

    ghost Value = { ℕ };

    ghost view = { λ r. length r.after.items };

    ghost invariant = { λ r. AreLinks r.after.items r.before.items r.stamps.items r.search };
}

/// A list that gives each number the number before it, and 0 the number `last`.
fn ring_after(alloc: Global, last: u32) -> Result<Vec<u32>, AllocError>
    requires { last < 2 ^ 31 }
    ensures length { IfOk result (λ after. length after.items ≡ last + 1) }
    ensures within { IfOk result (λ after. All (λ v. v < last + 1) after.items) }
{
    let mut after = Vec::new(alloc);
    after.push(last)?;
    for v in 0..last {
        after.push(v)?;
    }
    Ok(after)
}

/// A list that gives each number the next greater one, up to `last`, and then 0.
fn ring_before(alloc: Global, last: u32) -> Result<Vec<u32>, AllocError>
    requires { last < 2 ^ 31 }
    ensures length { IfOk result (λ before. length before.items ≡ last + 1) }
    ensures within { IfOk result (λ before. All (λ v. v < last + 1) before.items) }
{
    let mut before = Vec::new(alloc);
    for v in 0..last {
        before.push(v + 1)?;
    }
    before.push(0)?;
    Ok(before)
}

/// A list that gives each number itself as its stamp.
fn first_stamps(alloc: Global, last: u32) -> Result<Vec<u64>, AllocError>
    requires { last < 2 ^ 31 }
    ensures { IfOk result (λ stamps. length stamps.items ≡ last + 1) }
{
    let mut stamps = Vec::new(alloc);
    stamps.push(0)?;
    for v in 0..last {
        stamps.push(u64::from(v) + 1)?;
    }
    Ok(stamps)
}

impl Ring {
    /// The numbers from 1 to `last`, the last one at the front.
    pub fn new(alloc: Global, last: u32) -> Result<Ring, AllocError>
        requires { last < 2 ^ 31 }
        ensures { IfOk result (λ ring. ring ≡ last + 1) }
    {
        Ok(Ring {
            after: ring_after(alloc, last)?,
            before: ring_before(alloc, last)?,
            stamps: first_stamps(alloc, last)?,
            search: last,
            last_stamp: u64::from(last),
        })
    }

    /// Whether a number stands in the ring.
    pub fn has(&self, number: usize) -> bool
        ensures { result ≡ true → number < self.now }
    {
        number < self.after.len()
    }

    /// Where the search for an open variable begins, or 0 where there is none.
    pub fn search(&self) -> u32
        ensures { result < self.now }
    {
        self.search
    }

    /// Lets the search begin at this number; the numbers before it have values.
    pub fn set_search(&mut self, number: u32)
        requires { number < self.old }
        ensures { self.new ≡ self.old }
    {
        self.search = number;
    }

    /// The number behind another one, or 0 behind the last.
    pub fn next(&self, number: u32) -> u32
        requires { number < self.now }
        ensures { result < self.now }
    {
        self.after[number as usize]
    }

    /// The stamp of a number; numbers nearer to the front have greater stamps.
    pub fn stamp(&self, number: u32) -> u64
        requires { number < self.now }
    {
        self.stamps[number as usize]
    }

    /// Lets the search begin at the front.
    pub fn rewind(&mut self)
        ensures { self.new ≡ self.old }
    {
        self.search = self.after[0];
    }

    /// Notes that the number has no value any more.
    pub fn open(&mut self, number: u32)
        requires { number < self.old }
        ensures { self.new ≡ self.old }
    {
        if self.stamps[self.search as usize] < self.stamps[number as usize] {
            self.search = number;
        }
    }

    /// Where the search begins at this number, lets it begin behind it.
    fn pass(&mut self, number: u32)
        requires { number < self.old }
        ensures { self.new ≡ self.old }
    {
        if self.search == number {
            self.search = self.after[number as usize];
        }
    }

    /// Moves the number, which has a value, to the front.
    pub fn move_to_front(&mut self, number: u32)
        requires { number < self.old }
        ensures { self.new ≡ self.old }
    {
        self.pass(number);
        let next = self.after[number as usize];
        let previous = self.before[number as usize];
        self.after[previous as usize] = next;
        self.before[next as usize] = previous;
        let first = self.after[0];
        self.after[number as usize] = first;
        self.before[number as usize] = 0;
        self.before[first as usize] = number;
        self.after[0] = number;
        self.last_stamp = self.last_stamp.saturating_add(1);
        self.stamps[number as usize] = self.last_stamp;
    }
}
