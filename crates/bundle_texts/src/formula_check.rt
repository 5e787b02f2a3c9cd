//! A formula's text is compared as it is read, so that it is never held.
ghost use Rattle.std.specs.Prelude.{◌≡◌, ◌↔◌, ◌≤◌, [], length, take, drop, IsTrue};
ghost use Rattle.semantics.specs.Texts.{Bytes};
ghost use Rattle.proof_semantics.specs.Formula.{dimacs_text};
ghost use Rattle.file_reading.specs.Reading.{IsAllWanted};

use cnf_core::cnf::Cnf;
use cnf_core::dimacs_text::DimacsText;
use file_reading::intake::Intake;
use history::text::Text;
use std::alloc::AllocError;
use std::marker::Model;

/// The most bytes that are compared at once. They lie on the stack, which cannot grow once memory is short.
const PART: usize = 4096;

/// Whether the piece is what comes next in the formula's text; `rest` goes on behind the piece.
fn is_next(rest: &mut DimacsText, piece: &[u8]) -> bool
    requires { length piece.now ≤ PART }
    ensures answer { IsTrue result ↔ (piece.now ≡ take (length piece.now) rest.old) }
    ensures rest { rest.new ≡ drop (length piece.now) rest.old }
{
    let mut buffer = [0u8; PART];
    let next = &mut buffer[..piece.len()];
    let count = rest.fill(next);
    piece == &next[..count]
}

/// Callers see the formula, the text so far, and the number of bytes that are wanted next. The check
/// allocates nothing.
#[derive(Drop)]
pub struct FormulaCheck<'a> {
    formula: &'a Cnf,
    /// What is left of the formula's text, as long as the text that was taken does not differ from it.
    rest: DimacsText<'a>,
    is_same: bool,
    text: Text,
}

impl<'a> Model for FormulaCheck<'a> {
    ghost use Rattle.bundle_texts.specs.TextCheck.{TextCheck};

    ghost Value = { TextCheck };

    ghost use Rattle.bundle_texts.specs.FormulaStanding.{check_view, Stands};

    ghost view = { check_view };

    ghost invariant = { Stands };
}

impl<'a> FormulaCheck<'a> {
    /// At the start of a text.
    pub fn new(formula: &'a Cnf) -> FormulaCheck<'a>
        ensures { result ≡ record { formula = formula.now; text = []; room = PART } }
    {
        FormulaCheck {
            formula,
            rest: DimacsText::new(formula),
            is_same: true,
            text: Text::new(),
        }
    }

    /// Whether the text, once all wanted bytes were taken, is the formula's.
    pub fn finish(self) -> bool
        ensures { (content : Bytes) → IsAllWanted content self.entry.text self.entry.room
            → IsTrue result ↔ (content ≡ dimacs_text self.entry.formula) }
    {
        let FormulaCheck {
            mut rest,
            is_same,
            ..
        } = self;
        is_same && rest.fill(&mut [0]) == 0
    }
}

impl Intake for FormulaCheck<'_> {
    /// The formula.
    type Aim = Cnf;

    ghost aim = { λ a. a.formula };

    ghost text = { λ a. a.text };

    ghost room = { λ a. a.room };

    ghost use Rattle.std.specs.Prelude.{false};

    ghost takes_memory = { false };

    fn wanted(&self) -> usize {
        if self.is_same { PART } else { 0 }
    }

    fn take(&mut self, piece: &[u8]) -> Result<(), AllocError> {
        if self.is_same {
            self.is_same = is_next(&mut self.rest, piece);
        }
        self.text = self.text.and(piece);
        Ok(())
    }
}
