//! Which moves of a net are broken by the vectors that were taken so far. Only a block of vectors is held,
//! and a mark for each move.
ghost use Rattle.std.specs.Prelude.{◌≡◌, ◌↔◌, ◌∷◌, ◌++◌, [], List, Bool, IsTrue, length, IfOk, OnOk, OnErr};
ghost use Rattle.semantics.specs.Net.{input_count};
ghost use Rattle.bundle.specs.Shown.{HasSeen, AreAllBroken};

use crate::asked::Asked;
use crate::minimality::{are_all, first_marks, mark_block};
use lane_bits::patterns::Patterns;
use std::alloc::{AllocError, Global};
use std::marker::Model;

/// The most vectors that are held.
const BLOCK: u64 = 512;

/// What is asked of the vectors, the marks of the moves that vectors before the block break, and the block.
/// The memory grows with the nets and the moves, and not with the number of vectors.
#[derive(Drop)]
pub(crate) struct BrokenMoves<'a> {
    alloc: Global,
    asked: Asked<'a>,
    marks: Vec<bool>,
    block: Patterns,
}

impl<'a> Model for BrokenMoves<'a> {
    ghost use Rattle.std.specs.Prelude.{◌≡◌};
    ghost use Rattle.semantics.specs.Net.{input_count};
    ghost use Rattle.bundle.specs.Shown.{BrokenValue};

    ghost Value = { BrokenValue };

    ghost view = { λ a. record { asked = a.asked; marks = a.marks.items; block = a.block.vectors } };

    ghost invariant = { λ a. a.block.inputs ≡ input_count a.asked.exact };
}

impl<'a> BrokenMoves<'a> {
    /// Before the first vector.
    pub(crate) fn new(alloc: Global, asked: Asked<'a>) -> Result<BrokenMoves<'a>, AllocError>
        ensures asked { IfOk result (λ broken. broken.asked ≡ asked.entry) }
        ensures taken { IfOk result (λ broken. HasSeen broken []) }
    {
        let marks = first_marks(alloc, &asked)?;
        let block = Patterns::new(alloc, asked.inputs());
        Ok(BrokenMoves {
            alloc,
            asked,
            marks,
            block,
        })
    }

    /// What is asked of the vectors.
    pub(crate) fn asked(&self) -> &Asked<'a>
        ensures { result.now ≡ self.now.asked }
    {
        &self.asked
    }

    /// Marks the moves that the block's vectors break, and holds the block no longer.
    fn drop_block(&mut self) -> Result<(), AllocError>
        ensures asked { self.new.asked ≡ self.old.asked }
        ensures taken { (vectors : List (List Bool)) → HasSeen self.old vectors → HasSeen self.new vectors }
        ensures ok { OnOk result (self.new.block ≡ []) }
    {
        mark_block(self.alloc, &self.asked, &self.block, &mut self.marks)?;
        self.block = Patterns::new(self.alloc, self.asked.inputs());
        Ok(())
    }

    /// Makes room in the block for a vector.
    fn make_room(&mut self) -> Result<(), AllocError>
        ensures asked { self.new.asked ≡ self.old.asked }
        ensures taken { (vectors : List (List Bool)) → HasSeen self.old vectors → HasSeen self.new vectors }
    {
        if self.block.count() < BLOCK {
            return Ok(());
        }
        self.drop_block()
    }

    /// Takes one more vector.
    pub(crate) fn take(&mut self, x: &[bool]) -> Result<(), AllocError>
        requires { length x.now ≡ input_count self.old.asked.exact }
        ensures asked { self.new.asked ≡ self.old.asked }
        ensures ok { OnOk result ((vectors : List (List Bool)) → HasSeen self.old vectors
            → HasSeen self.new (vectors ++ x.now ∷ [])) }
        ensures err { OnErr result
            ((vectors : List (List Bool)) → HasSeen self.old vectors → HasSeen self.new vectors) }
    {
        self.make_room()?;
        self.block.push(x)?;
        Ok(())
    }

    /// Whether each move that is to be broken is broken by one of the vectors.
    pub(crate) fn finish(self) -> Result<bool, AllocError>
        ensures { IfOk result (λ yes. (vectors : List (List Bool)) → HasSeen self.entry vectors
            → IsTrue yes ↔ AreAllBroken self.entry.asked vectors) }
    {
        let mut rest = self;
        rest.drop_block()?;
        Ok(are_all(&rest.marks))
    }
}
