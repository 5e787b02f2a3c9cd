//! The new names that a compaction gave.
ghost use Rattle.std.specs.Prelude.{◌≡◌, ℕ, ◌<◌, ◌≤◌, ◌^◌, [], ◌∷◌, ◌++◌, length, take, IfOk};
ghost use Rattle.clause_pool.specs.Pool.{IsAbove};
ghost use Rattle.clause_pool.specs.Moved.{new_name};

use crate::clause_name::ClauseAt;
use std::alloc::{AllocError, Global};
use std::marker::Model;

/// Old names in rising order, each with its new name, and room for `room` names.
#[derive(Drop)]
pub struct Moved {
    olds: Vec<u32>,
    news: Vec<u32>,
    count: usize,
}

impl Model for Moved {
    ghost use Rattle.std.specs.Prelude.{◌≡◌, ◌≤◌, take, length};
    ghost use Rattle.clause_pool.specs.Moved.{MovedValue, IsFilled};

    ghost Value = { MovedValue };

    ghost view = { λ m. record {
      room = length m.olds.items;
      olds = take m.count m.olds.items;
      news = take m.count m.news.items;
    } };

    ghost invariant = { λ m. IsFilled m.olds.items m.news.items m.count };
}

impl Moved {
    /// Room for `clauses` names, or for as many as the region can have.
    pub fn reserve(alloc: Global, clauses: u64) -> Result<Moved, AllocError>
        ensures { IfOk result (λ moved. moved ≡ record { room = clauses; olds = []; news = [] }) }
    {
        let room = clauses as usize;
        Ok(Moved {
            olds: vec![in alloc; 0; room]?,
            news: vec![in alloc; 0; room]?,
            count: 0,
        })
    }

    /// The number of names for which there is room.
    pub fn room(&self) -> u64
        ensures { result ≡ self.now.room }
    {
        self.olds.len() as u64
    }

    /// Forgets all names.
    pub(crate) fn clear(&mut self)
        ensures { self.new ≡ record { room = self.old.room; olds = []; news = [] } }
    {
        self.count = 0;
    }

    /// Adds an old name that is above the others.
    pub(crate) fn push(&mut self, old: u32, new: u32)
        requires room { length self.old.olds < self.old.room }
        requires rising { IsAbove 0 (self.old.olds ++ old ∷ []) }
        ensures { self.new ≡ record {
          room = self.old.room;
          olds = self.old.olds ++ old ∷ [];
          news = self.old.news ++ new ∷ [];
        } }
    {
        self.olds[self.count] = old;
        self.news[self.count] = new;
        self.count += 1;
    }

    /// The new name of an old one, or None where `old` is no old name.
    pub fn find(&self, old: ClauseAt) -> Option<ClauseAt>
        ensures { result ≡ new_name self.now.olds self.now.news old }
    {
        match self.olds[..self.count].binary_search(&old.place()) {
            Ok(i) => Some(ClauseAt::new(self.news[i])),
            Err(_) => None,
        }
    }
}
