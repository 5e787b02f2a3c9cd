//! What takes a text in pieces.
ghost use Rattle.std.specs.Prelude.{◌≡◌, ℕ, Bool, IsTrue, List, ◌++◌, ◌≤◌, length, OnOk, OnErr};

use std::alloc::AllocError;

/// Takes a text from its first byte on, as far as it wants to know it.
pub trait Intake {
    /// What the text is taken for.
    type Aim;

    /// The aim, which stays whatever is taken.
    ghost aim: { Self → Self.Aim };

    /// The bytes so far.
    ghost text: { Self → List ℕ };

    /// The most bytes that it takes next; once this is 0, nothing more is wanted.
    ghost room: { Self → ℕ };

    /// Whether memory may run out while bytes are taken.
    ghost takes_memory: { Bool };

    fn wanted(&self) -> usize
        ensures { result ≡ room self.now };

    /// Takes the next bytes. Where memory ran out, nothing is known of the text.
    fn take(&mut self, piece: &[u8]) -> Result<(), AllocError>
        requires { length piece.now ≤ room self.old }
        ensures text { OnOk result (text self.new ≡ text self.old ++ piece.now) }
        ensures aim { aim self.new ≡ aim self.old }
        ensures err { OnErr result (IsTrue takes_memory) };
}
