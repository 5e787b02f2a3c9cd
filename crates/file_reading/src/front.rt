//! A text that is held in memory as far as a limit, and one byte past it.
ghost use Rattle.std.specs.Prelude.{◌≡◌, ◌+◌, ◌<◌, ◌≤◌, ◌^◌, [], length};

use crate::intake::Intake;
use std::alloc::{AllocError, Global};
use std::marker::Model;

/// The bytes so far; where they are more than the limit, the text is longer than the limit.
#[derive(Drop)]
pub struct Front {
    bytes: Vec<u8>,
    limit: usize,
}

impl Model for Front {
    ghost use Rattle.file_reading.specs.Front.{FrontValue};

    ghost Value = { FrontValue };

    ghost view = { λ a. record { bytes = a.bytes.items; limit = a.limit } };

    ghost use Rattle.std.specs.Prelude.{◌+◌, ◌≤◌, ◌<◌, ◌^◌, length};

    ghost invariant = { λ a. (length a.bytes.items ≤ a.limit + 1) × (a.limit < 2 ^ 40) };
}

impl Front {
    /// No bytes yet. The call takes no memory.
    pub fn new(alloc: Global, limit: usize) -> Front
        requires { limit < 2 ^ 40 }
        ensures { result ≡ record { bytes = []; limit = limit } }
    {
        Front {
            bytes: Vec::new(alloc),
            limit,
        }
    }

    /// The bytes so far: at most one more than the limit.
    pub fn bytes(&self) -> &[u8]
        ensures value { result.now ≡ self.now.bytes }
        ensures within { length self.now.bytes ≤ self.now.limit + 1 }
        ensures limit { self.now.limit < 2 ^ 40 }
    {
        self.bytes.as_slice()
    }
}

impl Intake for Front {
    /// The limit.
    type Aim = usize;

    ghost aim = { λ a. a.limit };

    ghost text = { λ a. a.bytes };

    ghost use Rattle.std.specs.Prelude.{◌+◌, ◌-◌, length};

    ghost room = { λ a. a.limit + 1 - length a.bytes };

    ghost use Rattle.std.specs.Prelude.{true};

    ghost takes_memory = { true };

    fn wanted(&self) -> usize {
        self.limit + 1 - self.bytes.len()
    }

    fn take(&mut self, piece: &[u8]) -> Result<(), AllocError> {
        self.bytes.extend_from_slice(piece)
    }
}
