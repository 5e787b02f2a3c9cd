//! The vectors of a text are judged line by line as they are read: the first wrong byte refutes the text, and
//! only a block of the vectors before it is held.
ghost use Rattle.std.specs.Prelude.{◌≡◌, ◌==◌, [], ◌∷◌, ◌++◌, List, Bool, true, length, if◌then◌else◌, IfOk};
ghost use Rattle.std.specs.Prelude.{OnOk, OnErr};
ghost use Rattle.semantics.specs.Net.{input_count};
ghost use Rattle.semantics.specs.Texts.{Bytes};
ghost use Rattle.file_reading.specs.Reading.{IsAllWanted};
ghost use Rattle.bundle.specs.Shown.{HasSeen, StandsAt, AreShownIn};

use crate::asked::Asked;
use crate::broken_moves::BrokenMoves;
use bundle_texts::vector_line::VectorLine;
use file_reading::intake::Intake;
use history::text::Text;
use std::alloc::{AllocError, Global};
use std::marker::Model;

/// The number of bytes that are taken at once.
const PART: usize = 4096;

/// Takes the vector of the line, where the line has all its bits and lacks only its end.
fn take_vector(broken: &mut BrokenMoves, line: &VectorLine) -> Result<(), AllocError>
    requires { line.now.inputs ≡ input_count broken.old.asked.exact }
    ensures asked { broken.new.asked ≡ broken.old.asked }
    ensures ok { OnOk result ((vectors : List (List Bool)) → HasSeen broken.old vectors
        → HasSeen broken.new (if length line.now.begun == line.now.inputs then vectors ++ line.now.begun
        ∷ [] else vectors)) }
    ensures err { OnErr result
        ((vectors : List (List Bool)) → HasSeen broken.old vectors → HasSeen broken.new vectors) }
{
    let Some(x) = line.vector() else {
        return Ok(());
    };
    broken.take(x)?;
    Ok(())
}

/// Takes the byte where it may come next, and returns whether it may.
fn takes(broken: &mut BrokenMoves, line: &mut VectorLine, byte: u8) -> Result<bool, AllocError>
    requires { length broken.old.asked.witness ≡ line.old.inputs }
    ensures asked { broken.new.asked ≡ broken.old.asked }
    ensures ok { IfOk result (λ is_right. (text : Bytes) → StandsAt true broken.old line.old text
        → StandsAt is_right broken.new line.new (text ++ byte ∷ [])) }
    ensures err { OnErr result ((text : Bytes) → StandsAt true broken.old line.old text
        → StandsAt true broken.new line.new text) }
{
    if !line.is_next(broken.asked().witness(), byte) {
        return Ok(false);
    }
    take_vector(broken, line)?;
    line.take(byte);
    Ok(true)
}

/// Callers see what is asked, the text so far, and the number of bytes that are wanted next.
#[derive(Drop)]
pub(crate) struct VectorsCheck<'a> {
    broken: BrokenMoves<'a>,
    line: VectorLine,
    is_right: bool,
    text: Text,
}

impl<'a> Model for VectorsCheck<'a> {
    ghost use Rattle.bundle.specs.Shown.{VectorsText};

    ghost Value = { VectorsText };

    ghost use Rattle.bundle.specs.VectorsStanding.{check_view, Stands};

    ghost view = { check_view };

    ghost invariant = { Stands };
}

impl<'a> VectorsCheck<'a> {
    /// At the start of a text whose first line is to be the witness.
    pub(crate) fn new(alloc: Global, asked: Asked<'a>) -> Result<VectorsCheck<'a>, AllocError>
        ensures { IfOk result (λ check. check ≡ record { asked = asked.entry; text = []; room = PART }) }
    {
        let line = VectorLine::new(asked.inputs());
        Ok(VectorsCheck {
            broken: BrokenMoves::new(alloc, asked)?,
            line,
            is_right: true,
            text: Text::new(),
        })
    }

    /// Takes the next byte. Bytes behind the first wrong one are not looked at.
    fn take_byte(&mut self, byte: u8) -> Result<(), AllocError>
        ensures asked { self.new.asked ≡ self.old.asked }
        ensures text { OnOk result (self.new.text ≡ self.old.text ++ byte ∷ []) }
    {
        if self.is_right {
            self.is_right = takes(&mut self.broken, &mut self.line, byte)?;
        }
        self.text = self.text.and(&[byte]);
        Ok(())
    }

    /// Whether the vectors of the text, once all wanted bytes were taken, show what is asked; None where the
    /// text is not lines of vectors with the witness first.
    pub(crate) fn finish(self) -> Result<Option<bool>, AllocError>
        ensures { IfOk result (λ shown. (content : Bytes)
            → IsAllWanted content self.entry.text self.entry.room
            → AreShownIn self.entry.asked shown content) }
    {
        let VectorsCheck {
            broken,
            line,
            is_right,
            ..
        } = self;
        if !is_right {
            return Ok(None);
        }
        if !line.is_whole() {
            return Ok(None);
        }
        Ok(Some(broken.finish()?))
    }
}

impl<'a> Intake for VectorsCheck<'a> {
    /// What is asked.
    type Aim = Asked<'a>;

    ghost aim = { λ a. a.asked };

    ghost text = { λ a. a.text };

    ghost room = { λ a. a.room };

    ghost use Rattle.std.specs.Prelude.{true};

    ghost takes_memory = { true };

    fn wanted(&self) -> usize {
        if self.is_right { PART } else { 0 }
    }

    fn take(&mut self, piece: &[u8]) -> Result<(), AllocError> {
        for byte in piece {
            self.take_byte(*byte)?;
        }
        Ok(())
    }
}
