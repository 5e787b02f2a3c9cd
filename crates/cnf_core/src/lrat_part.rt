//! Where a log's text stands in the grammar of LRAT, and how a token goes on.
ghost use Rattle.std.specs.Prelude.{◌≡◌, ◌^◌, ◌<◌, ◌++◌, IfOk, OnErr};
ghost use Rattle.proof_semantics.specs.LratMatching.{Begun, Literals, Hints, Deletion, signed, after_outside};
ghost use Rattle.proof_semantics.specs.LratMatching.{after_begun, after_literals, after_hints};
ghost use Rattle.proof_semantics.specs.LratMatching.{after_deletion, stage_after, item_given};
ghost use Rattle.proof_semantics.specs.LratReading.{refusal_at, refusal_at_end};
ghost use Rattle.cnf_core.specs.Drafts.{Grows};
ghost use Rattle.cnf_core.specs.LratParts.{stage_at};
ghost use Rattle.proof_parts.specs.Literals.{IsLiteral};

use crate::item_draft::ItemDraft;
use crate::literal::Literal;
use crate::log::Item;
use proof_semantics::lrat_refusal::LratRefusal;
use proof_semantics::lrat_word::LratWord;
use std::alloc::AllocError;
use std::collections::VecDeque;

/// Where the next token stands; the lists of the item at hand are kept elsewhere.
#[derive(Clone, Copy, Drop)]
pub enum Part {
    BetweenItems,
    AfterId(u64),
    InLiterals(u64),
    InHints(u64),
    InDeletion,
    AfterRefusal(LratRefusal),
}

fn bad_number(place: u64) -> Part
    ensures { result ≡ Part.AfterRefusal (LratRefusal.BadNumber place) }
{
    Part::AfterRefusal(LratRefusal::BadNumber(place))
}

/// A literal of this size, with its sign.
fn signed(negative: bool, size: u64) -> Literal
    requires some { 0 < size }
    requires small { size < 2 ^ 31 }
    ensures value { result ≡ signed negative size }
    ensures formed { IsLiteral result }
{
    let variable = size as i32;
    if negative { -variable } else { variable }
}

fn after_outside(word: LratWord, place: u64, draft: &ItemDraft) -> Part
    ensures { stage_at result draft.now ≡ after_outside word place }
{
    match word {
        LratWord::Number { negative, size } if !negative || size == 0 => Part::AfterId(size),
        _ => bad_number(place),
    }
}

#[inline(always)]
fn after_literals(
    id: u64,
    word: LratWord,
    place: u64,
    draft: &mut ItemDraft,
) -> Result<Part, AllocError>
    ensures ok { IfOk result (λ part. stage_at part draft.new
        ≡ after_literals id draft.old.literals.at_hand word place) }
    ensures grows { Grows draft.old draft.new }
{
    match word {
        LratWord::Number { size: 0, .. } => {
            draft.begin_numbers();
            Ok(Part::InHints(id))
        }
        LratWord::Number { negative, size } if size < 1 << 31 => {
            draft.push_literal(signed(negative, size))?;
            Ok(Part::InLiterals(id))
        }
        _ => Ok(bad_number(place)),
    }
}

fn after_id(id: u64, word: LratWord, place: u64, draft: &mut ItemDraft) -> Result<Part, AllocError>
    ensures ok { IfOk result (λ part. stage_at part draft.new ≡ after_begun id word place) }
    ensures grows { Grows draft.old draft.new }
{
    if word == LratWord::Letter {
        draft.begin_numbers();
        return Ok(Part::InDeletion);
    }
    if id == 0 {
        return Ok(bad_number(place));
    }
    draft.begin_literals();
    after_literals(id, word, place, draft)
}

#[inline(always)]
fn after_hints(
    id: u64,
    word: LratWord,
    place: u64,
    draft: &mut ItemDraft,
    items: &mut VecDeque<Item>,
) -> Result<Part, AllocError>
    ensures ok { IfOk result (λ part. (stage_at part draft.new
        ≡ after_hints id draft.old.literals.at_hand draft.old.numbers.at_hand word place)
        × (items.new.items ≡ items.old.items
        ++ item_given (Hints id draft.old.literals.at_hand draft.old.numbers.at_hand) word)) }
    ensures err { OnErr result (items.new.items ≡ items.old.items) }
    ensures grows { Grows draft.old draft.new }
{
    match word {
        LratWord::Number { size: 0, .. } => {
            let step = draft.step(id)?;
            items.push_back(Item::Add(step))?;
            Ok(Part::BetweenItems)
        }
        LratWord::Number { negative: true, .. } => {
            Ok(Part::AfterRefusal(LratRefusal::Negative(id)))
        }
        LratWord::Number { size, .. } => {
            draft.push_number(size)?;
            Ok(Part::InHints(id))
        }
        _ => Ok(bad_number(place)),
    }
}

fn after_deletion(
    word: LratWord,
    place: u64,
    draft: &mut ItemDraft,
    items: &mut VecDeque<Item>,
) -> Result<Part, AllocError>
    ensures ok { IfOk result (λ part. (stage_at part draft.new
        ≡ after_deletion draft.old.numbers.at_hand word place)
        × (items.new.items ≡ items.old.items ++ item_given (Deletion draft.old.numbers.at_hand) word)) }
    ensures err { OnErr result (items.new.items ≡ items.old.items) }
    ensures grows { Grows draft.old draft.new }
{
    match word {
        LratWord::Number { size: 0, .. } => {
            let ids = draft.ids()?;
            items.push_back(Item::Remove(ids))?;
            Ok(Part::BetweenItems)
        }
        LratWord::Number {
            negative: false,
            size,
        } => {
            draft.push_number(size)?;
            Ok(Part::InDeletion)
        }
        _ => Ok(bad_number(place)),
    }
}

impl Part {
    /// The part behind one more token, which stands at this place. An item that ends with the token is added
    /// behind the others.
    #[inline(always)]
    pub fn after(
        self,
        word: LratWord,
        place: u64,
        draft: &mut ItemDraft,
        items: &mut VecDeque<Item>,
    ) -> Result<Part, AllocError>
        ensures ok { IfOk result
            (λ part. (stage_at part draft.new ≡ stage_after (stage_at self draft.old) word place)
            × (items.new.items ≡ items.old.items ++ item_given (stage_at self draft.old) word)) }
        ensures err { OnErr result (items.new.items ≡ items.old.items) }
        ensures grows { Grows draft.old draft.new }
    {
        match self {
            Part::BetweenItems => Ok(after_outside(word, place, draft)),
            Part::AfterId(id) => after_id(id, word, place, draft),
            Part::InLiterals(id) => after_literals(id, word, place, draft),
            Part::InHints(id) => after_hints(id, word, place, draft, items),
            Part::InDeletion => after_deletion(word, place, draft, items),
            Part::AfterRefusal(refusal) => Ok(Part::AfterRefusal(refusal)),
        }
    }

    /// Why the text so far begins no log, if it begins none.
    #[inline(always)]
    pub fn refusal(self, draft: &ItemDraft) -> Option<LratRefusal>
        ensures { result ≡ refusal_at (stage_at self draft.now) }
    {
        match self {
            Part::AfterRefusal(refusal) => Some(refusal),
            _ => None,
        }
    }

    /// Why a text that ends here is no log.
    pub fn refusal_at_end(self, draft: &ItemDraft) -> Option<LratRefusal>
        ensures { result ≡ refusal_at_end (stage_at self draft.now) }
    {
        match self {
            Part::AfterRefusal(refusal) => Some(refusal),
            Part::BetweenItems => None,
            _ => Some(LratRefusal::Cut),
        }
    }
}
