//! Which file is open and the read turns so far, which only contracts and proofs read.
ghost use Rattle.std.specs.Prelude.{◌≡◌, ℕ, List, [], Option, Some, None};
ghost use Rattle.std.specs.Borrow.{ftrue};
ghost use Rattle.history.specs.Turns.{with_turn};

use std::marker::Model;

/// A clause reads the name that is open as `opened`, and the names of the turns, the last first, as `turns`.
#[derive(Drop)]
pub struct Reads {
    pub ghost opened: { Option (List ℕ) },
    pub ghost turns: { List (List ℕ) },
}

impl Model for Reads {
    ghost also_owns = { λ _. ftrue };
}

impl Reads {
    /// Nothing is open, and there was no turn.
    pub fn new() -> Reads
        ensures { (result.opened ≡ None) × (result.turns ≡ []) }
    {
        Reads {}
    }

    /// The file with this name is open.
    pub fn open(&self, name: &[u8]) -> Reads
        ensures { (result.opened ≡ Some name.now) × (result.turns ≡ self.now.turns) }
    {
        Reads {}
    }

    /// Nothing is open.
    pub fn close(&self) -> Reads
        ensures { (result.opened ≡ None) × (result.turns ≡ self.now.turns) }
    {
        Reads {}
    }

    /// One more turn of the open file, if one is open.
    pub fn turn(&self) -> Reads
        ensures { (result.opened ≡ self.now.opened)
            × (result.turns ≡ with_turn self.now.opened self.now.turns) }
    {
        Reads {}
    }
}
