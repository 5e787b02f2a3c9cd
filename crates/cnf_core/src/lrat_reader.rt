//! A log whose text comes in pieces. Source: LRAT.
ghost use Rattle.std.specs.Prelude.{◌≡◌, ◌+◌, ◌^◌, ◌<◌, false, true, length, slice_get, IfErr, OnErr, OnOk};
ghost use Rattle.proof_semantics.specs.LratReading.{lrat_items};
ghost use Rattle.cnf_core.specs.LratReads.{nothing_read, read_items, fed, IsFeedRefusal, IsFinishRefusal};
ghost use Rattle.cnf_core.specs.LratReads.{after_next};

use crate::item_draft::ItemDraft;
use crate::log::Item;
use crate::lrat_part::Part;
use crate::lrat_scanner::Scanner;
use history::text::Text;
use proof_semantics::lrat_refusal::LratRefusal;
use std::alloc::{AllocError, Global};
use std::collections::VecDeque;
use std::marker::Model;

/// Callers see the text that was fed, the number of its items that were given, whether it has ended, and its
/// refusal. The text itself is not kept: the memory grows with the items that wait and the item at hand.
#[derive(Drop)]
pub struct LratReader {
    scanner: Scanner,
    draft: ItemDraft,
    /// Whole items that were not given yet.
    waiting: VecDeque<Item>,
    is_finished: bool,
    text: Text,
}

impl Model for LratReader {
    ghost use Rattle.cnf_core.specs.LratReads.{LogRead};

    ghost Value = { LogRead };

    ghost use Rattle.cnf_core.specs.LratStanding.{read_view, Stands};

    ghost view = { read_view };

    ghost invariant = { Stands };
}

impl LratReader {
    /// At the start of a text. The call takes no memory.
    pub fn new(alloc: Global) -> LratReader
        ensures { result ≡ nothing_read }
    {
        LratReader {
            scanner: Scanner::new(),
            draft: ItemDraft::new(alloc),
            waiting: VecDeque::new(alloc),
            is_finished: false,
            text: Text::new(),
        }
    }

    fn refusal(&self) -> Option<LratRefusal>
        ensures { result ≡ self.now.refused }
    {
        self.scanner.part.refusal(&self.draft)
    }

    /// Reads the next piece of a text that was not refused.
    fn read(&mut self, piece: &[u8]) -> Result<(), AllocError>
        requires going { self.old.finished ≡ false }
        requires calm { self.old.refused ≡ None }
        requires size { length self.old.text + length piece.now < 2 ^ 63 }
        ensures ok { OnOk result (self.new ≡ fed self.old piece.now) }
        ensures err { OnErr result (self.new ≡ self.old) }
    {
        let lengths = self.draft.lengths();
        let count = self.waiting.len();
        match self
            .scanner
            .with_bytes(piece, &mut self.draft, &mut self.waiting)
        {
            Ok(scanner) => self.scanner = scanner,
            Err(error) => {
                self.draft.take_back(lengths);
                self.waiting.truncate(count);
                return Err(error);
            }
        }
        self.draft.settle();
        self.text = self.text.and(piece);
        Ok(())
    }

    /// Takes the next piece of the text, in time linear in the piece and, where an item ends in it, in that
    /// item. Once the text is refused, each call returns the refusal. Where memory is wanting, nothing
    /// changes.
    pub fn feed(&mut self, piece: &[u8]) -> Result<(), LratRefusal>
        requires going { self.old.finished ≡ false }
        requires size { length self.old.text + length piece.now < 2 ^ 63 }
        ensures ok { OnOk result
            ((self.old.refused ≡ None) × (self.new ≡ fed self.old piece.now) × (self.new.refused ≡ None)) }
        ensures err { IfErr result (λ r. IsFeedRefusal self.old piece.now r self.new) }
    {
        if let Some(refusal) = self.refusal() {
            return Err(refusal);
        }
        if self.read(piece).is_err() {
            return Err(LratRefusal::OutOfMemory);
        }
        match self.refusal() {
            Some(refusal) => Err(refusal),
            None => Ok(()),
        }
    }

    /// The next item that is whole.
    pub fn next(&mut self) -> Option<Item>
        ensures item { result ≡ slice_get (read_items self.old) self.old.given }
        ensures given { self.new ≡ after_next self.old }
    {
        self.waiting.pop_front()
    }

    /// Ends the text. Once the text is refused, each call returns the refusal. Where memory is wanting,
    /// nothing changes.
    pub fn finish(&mut self) -> Result<(), LratRefusal>
        requires { length self.old.text < 2 ^ 63 }
        ensures ok { OnOk result
            ((self.old.refused ≡ None) × (lrat_items self.old.text ≡ Ok (read_items self.new))
            × (self.new ≡ record self.old { finished = true })) }
        ensures err { IfErr result (λ r. IsFinishRefusal self.old r self.new) }
    {
        if self.is_finished {
            return Ok(());
        }
        if let Some(refusal) = self.scanner.part.refusal(&self.draft) {
            return Err(refusal);
        }
        let lengths = self.draft.lengths();
        let Ok(scanner) = self.scanner.close(&mut self.draft, &mut self.waiting) else {
            self.draft.take_back(lengths);
            return Err(LratRefusal::OutOfMemory);
        };
        self.draft.settle();
        if let Some(refusal) = scanner.part.refusal_at_end(&self.draft) {
            self.scanner.part = Part::AfterRefusal(refusal);
            return Err(refusal);
        }
        self.scanner = scanner;
        self.is_finished = true;
        Ok(())
    }
}
