//! A log's text byte by byte.
ghost use Rattle.std.specs.Prelude.{◌≡◌, ◌+◌, ◌^◌, ◌<◌, ◌≤◌, ◌++◌, length, drop, false, IsTrue, IfOk, OnErr};
ghost use Rattle.proof_semantics.specs.LratReading.{is_refused};
ghost use Rattle.cnf_core.specs.LratScanning.{begin, closed, closed_gives, scanned, gives, scanned_all};
ghost use Rattle.cnf_core.specs.LratScanning.{all_given, FoundMore};
ghost use Rattle.cnf_core.specs.FrontDigits.{LeadAlike, IsNumberSoFar};
ghost use Rattle.cnf_core.specs.FrontNumbers.{TakesNumbers};
ghost use Rattle.cnf_core.specs.Drafts.{ItemDraftValue, with_numbers, Grows};
ghost use Rattle.cnf_core.specs.LratParts.{stage_at, scanner_at};

use crate::front_digits::take_digits;
use crate::held_word::{HeldWord, NumberSoFar, is_blank, is_log_byte};
use crate::item_draft::ItemDraft;
use crate::log::Item;
use crate::lrat_part::Part;
use proof_semantics::lrat_refusal::LratRefusal;
use std::alloc::AllocError;
use std::collections::VecDeque;

/// What is kept of a text to read on, besides the lists of the item at hand.
#[derive(Clone, Copy, Drop)]
pub struct Scanner {
    pub part: Part,
    pub word: HeldWord,
    /// The place of the first byte of the token at hand.
    pub start: u64,
    /// The place of the next byte.
    pub at: u64,
}

/// A scanner, and the number of bytes that it read.
#[derive(Clone, Copy, Drop)]
struct Advance {
    scanner: Scanner,
    count: usize,
}

impl Scanner {
    /// At the start of a text.
    pub fn new() -> Scanner
        ensures { (draft : ItemDraftValue) → scanner_at result draft ≡ begin }
    {
        Scanner {
            part: Part::BetweenItems,
            word: HeldWord::Empty,
            start: 0,
            at: 0,
        }
    }

    /// Ends the token at hand.
    #[inline(always)]
    pub fn close(
        self,
        draft: &mut ItemDraft,
        items: &mut VecDeque<Item>,
    ) -> Result<Scanner, AllocError>
        requires { self.at < 2 ^ 63 }
        ensures ok { IfOk result (λ s. (scanner_at s draft.new ≡ closed (scanner_at self draft.old))
            × (items.new.items ≡ items.old.items ++ closed_gives (scanner_at self draft.old))) }
        ensures err { OnErr result (items.new.items ≡ items.old.items) }
        ensures grows { Grows draft.old draft.new }
    {
        let part = match self.word.ended() {
            Some(word) => self.part.after(word, self.start, draft, items)?,
            None => self.part,
        };
        let at = self.at + 1;
        Ok(Scanner {
            part,
            word: HeldWord::Empty,
            start: at,
            at,
        })
    }

    /// The scanner behind one more byte. An item that ends with the byte is added behind the others.
    #[inline(always)]
    pub fn with_byte(
        self,
        byte: u8,
        draft: &mut ItemDraft,
        items: &mut VecDeque<Item>,
    ) -> Result<Scanner, AllocError>
        requires { self.at < 2 ^ 63 }
        ensures ok { IfOk result (λ s. (scanner_at s draft.new ≡ scanned (scanner_at self draft.old) byte)
            × (items.new.items ≡ items.old.items ++ gives (scanner_at self draft.old) byte)) }
        ensures err { OnErr result (items.new.items ≡ items.old.items) }
        ensures grows { Grows draft.old draft.new }
    {
        if self.part.refusal(draft).is_some() {
            return Ok(self);
        }
        if is_blank(byte) {
            return self.close(draft, items);
        }
        if !is_log_byte(byte) {
            let part = Part::AfterRefusal(LratRefusal::BadByte(self.at));
            return Ok(Scanner { part, ..self });
        }
        Ok(Scanner {
            word: self.word.with_byte(byte),
            at: self.at + 1,
            ..self
        })
    }

    /// The scanner behind the digits at the front of the bytes, where the token at hand is `number` so far.
    #[inline(always)]
    fn with_digits(self, number: NumberSoFar, bytes: &[u8], draft: &ItemDraft) -> Advance
        requires calm { is_refused (stage_at self.part draft.now) ≡ false }
        requires number { IsNumberSoFar self.word number.negative number.size }
        requires place { self.at + length bytes.now < 2 ^ 63 }
        ensures within { result.count ≤ length bytes.now }
        ensures lead { LeadAlike (scanner_at self draft.now) bytes.now (scanner_at result.scanner draft.now)
            (drop result.count bytes.now) }
        ensures place { result.scanner.at ≡ self.at + result.count }
    {
        let digits = take_digits(number.size, bytes);
        if digits.count == 0 {
            return Advance {
                scanner: self,
                count: 0,
            };
        }
        Advance {
            scanner: Scanner {
                word: HeldWord::Number {
                    negative: number.negative,
                    size: digits.size,
                },
                at: self.at + digits.count as u64,
                ..self
            },
            count: digits.count,
        }
    }

    /// The scanner behind the digits at the front of the bytes, where they belong to a number.
    #[inline(always)]
    fn with_front(self, bytes: &[u8], draft: &ItemDraft) -> Advance
        requires { self.at + length bytes.now < 2 ^ 63 }
        ensures within { result.count ≤ length bytes.now }
        ensures lead { LeadAlike (scanner_at self draft.now) bytes.now (scanner_at result.scanner draft.now)
            (drop result.count bytes.now) }
        ensures place { result.scanner.at ≡ self.at + result.count }
    {
        match self.word.number() {
            Some(number) if self.part.refusal(draft).is_none() => {
                self.with_digits(number, bytes, draft)
            }
            _ => Advance {
                scanner: self,
                count: 0,
            },
        }
    }

    /// Whether hints or ids are at hand, and the next one has not begun.
    #[inline(always)]
    fn takes_numbers(self) -> bool
        ensures { IsTrue result → (self.word ≡ HeldWord.Empty)
            × ((draft : ItemDraftValue)
            → TakesNumbers (λ numbers. stage_at self.part (with_numbers draft numbers))) }
    {
        match self.part {
            Part::InHints(_) | Part::InDeletion => self.word.is_empty(),
            _ => false,
        }
    }

    /// The scanner behind the whole hints or ids at the front of the bytes.
    #[inline(always)]
    fn with_numbers(self, bytes: &[u8], draft: &mut ItemDraft) -> Result<Advance, AllocError>
        requires { self.at + length bytes.now < 2 ^ 63 }
        ensures within { IfOk result (λ a. a.count ≤ length bytes.now) }
        ensures lead { IfOk result (λ a.
            LeadAlike (scanner_at self draft.old) bytes.now (scanner_at a.scanner draft.new)
            (drop a.count bytes.now)) }
        ensures place { IfOk result (λ a. a.scanner.at ≡ self.at + a.count) }
        ensures grows { Grows draft.old draft.new }
    {
        if !self.takes_numbers() {
            return Ok(Advance {
                scanner: self,
                count: 0,
            });
        }
        let count = draft.push_numbers(bytes)?;
        if count == 0 {
            return Ok(Advance {
                scanner: self,
                count,
            });
        }
        let at = self.at + count as u64;
        Ok(Advance {
            scanner: Scanner {
                start: at,
                at,
                ..self
            },
            count,
        })
    }

    /// The scanner behind these bytes. The items that end within them are added behind the others.
    pub fn with_bytes(
        self,
        bytes: &[u8],
        draft: &mut ItemDraft,
        items: &mut VecDeque<Item>,
    ) -> Result<Scanner, AllocError>
        requires { self.at + length bytes.now < 2 ^ 63 }
        ensures ok { IfOk result
            (λ s. (scanner_at s draft.new ≡ scanned_all (scanner_at self draft.old) bytes.now)
            × (items.new.items ≡ items.old.items ++ all_given (scanner_at self draft.old) bytes.now)) }
        ensures items { FoundMore items.old.items items.new.items }
        ensures grows { Grows draft.old draft.new }
    {
        let mut scanner = self;
        let mut at = 0;
        'fronts: loop {
            let numbers = scanner.with_numbers(&bytes[at..], draft)?;
            at += numbers.count;
            let front = numbers.scanner.with_front(&bytes[at..], draft);
            at += front.count;
            let Some(byte) = bytes.get(at) else {
                return Ok(front.scanner);
            };
            scanner = front.scanner.with_byte(*byte, draft, items)?;
            at += 1;
        }
    }
}
