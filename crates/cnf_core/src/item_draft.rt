//! The lists of the item at hand.
ghost use Rattle.std.specs.Prelude.{◌≡◌, ◌^◌, ◌<◌, ◌≤◌, [], ◌∷◌, ◌++◌, length, take, IfOk, OnOk, OnErr};
ghost use Rattle.cnf_core.specs.Drafts.{whole, with_numbers, Grows};
ghost use Rattle.cnf_core.specs.FrontNumbers.{NumbersLead};
ghost use Rattle.proof_parts.specs.Literals.{IsLiteral};

use crate::clause::Lits;
use crate::draft::Draft;
use crate::front_numbers::take_numbers;
use crate::literal::Literal;
use crate::log::{Ids, Step};
use std::alloc::{AllocError, Global};
use std::marker::Model;

/// The literals of an addition, and its hints or the ids of a deletion. Lists that were begun before are kept
/// until `settle`, so that all can be taken back where memory is wanting.
#[derive(Drop)]
pub struct ItemDraft {
    literals: Draft<Literal>,
    numbers: Draft<u64>,
}

impl Model for ItemDraft {
    ghost use Rattle.cnf_core.specs.Drafts.{ItemDraftValue, whole};
    ghost use Rattle.proof_parts.specs.Literals.{AreLiterals};

    ghost Value = { ItemDraftValue };

    ghost view = { λ a. record { literals = a.literals; numbers = a.numbers } };

    ghost invariant = { λ a. AreLiterals (whole a.literals) };
}

/// The lengths of the two lists at hand.
#[derive(Clone, Copy, Drop)]
pub struct Lengths {
    pub literals: usize,
    pub numbers: usize,
}

impl ItemDraft {
    /// No lists. The call takes no memory.
    pub fn new(alloc: Global) -> ItemDraft
        ensures { result ≡ record {
          literals = record { before = []; at_hand = [] };
          numbers = record { before = []; at_hand = [] };
        } }
    {
        ItemDraft {
            literals: Draft::new(alloc),
            numbers: Draft::new(alloc),
        }
    }

    /// Begins an empty list of literals.
    pub fn begin_literals(&mut self)
        ensures value { self.new
            ≡ record self.old { literals = record { before = whole self.old.literals; at_hand = [] } } }
        ensures grows { Grows self.old self.new }
    {
        self.literals.begin();
    }

    /// Begins an empty list of hints or ids.
    pub fn begin_numbers(&mut self)
        ensures value { self.new
            ≡ record self.old { numbers = record { before = whole self.old.numbers; at_hand = [] } } }
        ensures grows { Grows self.old self.new }
    {
        self.numbers.begin();
    }

    /// Adds a literal to the list at hand. A refusal leaves everything as it was.
    pub fn push_literal(&mut self, literal: Literal) -> Result<(), AllocError>
        requires { IsLiteral literal }
        ensures ok { OnOk result (self.new
            ≡ record self.old {
              literals
                  = record self.old.literals { at_hand = self.old.literals.at_hand ++ literal ∷ [] };
            }) }
        ensures err { OnErr result (self.new ≡ self.old) }
        ensures grows { Grows self.old self.new }
    {
        self.literals.push(literal)
    }

    /// Adds a hint or an id to the list at hand. A refusal leaves everything as it was.
    pub fn push_number(&mut self, number: u64) -> Result<(), AllocError>
        ensures ok { OnOk result (self.new
            ≡ record self.old {
              numbers
                  = record self.old.numbers { at_hand = self.old.numbers.at_hand ++ number ∷ [] };
            }) }
        ensures err { OnErr result (self.new ≡ self.old) }
        ensures grows { Grows self.old self.new }
    {
        self.numbers.push(number)
    }

    /// Adds the positive numbers at the front of the bytes, each of which ends with a blank, to the hints or
    /// ids. Returns how many bytes they are.
    #[inline(always)]
    pub fn push_numbers(&mut self, bytes: &[u8]) -> Result<usize, AllocError>
        ensures within { IfOk result (λ count. count ≤ length bytes.now) }
        ensures lead { IfOk result
            (λ count. NumbersLead self.old.numbers.at_hand bytes.now self.new.numbers.at_hand count) }
        ensures kept { IfOk result (λ _. self.new ≡ with_numbers self.old self.new.numbers.at_hand) }
        ensures none { IfOk result (λ count. count ≡ 0 → self.new ≡ self.old) }
        ensures grows { Grows self.old self.new }
    {
        take_numbers(&mut self.numbers, bytes)
    }

    /// The step of the lists at hand.
    pub fn step(&self, id: u64) -> Result<Step, AllocError>
        ensures { IfOk result (λ s. s
            ≡ record { id = id; literals = self.now.literals.at_hand; hints = self.now.numbers.at_hand }) }
    {
        let literals = Lits::from_slice(*self.literals.allocator(), self.literals.as_slice())?;
        let hints = self.ids()?;
        Ok(Step::new(id, literals, hints))
    }

    /// The ids at hand.
    pub fn ids(&self) -> Result<Ids, AllocError>
        ensures { IfOk result (λ ids. ids ≡ self.now.numbers.at_hand) }
    {
        Ids::from_slice(*self.numbers.allocator(), self.numbers.as_slice())
    }

    /// The number of literals at hand, and the number of hints or ids.
    pub fn lengths(&self) -> Lengths
        ensures literals { result.literals ≡ length self.now.literals.at_hand }
        ensures numbers { result.numbers ≡ length self.now.numbers.at_hand }
    {
        Lengths {
            literals: self.literals.len(),
            numbers: self.numbers.len(),
        }
    }

    /// Forgets the lists that were begun before the lists at hand.
    pub fn settle(&mut self)
        ensures { self.new ≡ record {
          literals = record { before = []; at_hand = self.old.literals.at_hand };
          numbers = record { before = []; at_hand = self.old.numbers.at_hand };
        } }
    {
        self.literals.settle();
        self.numbers.settle();
    }

    /// Makes the lists that had these lengths, when nothing stood before them, the lists at hand again.
    pub fn take_back(&mut self, lengths: Lengths)
        ensures { self.new ≡ record {
          literals = record { before = []; at_hand = take lengths.literals (whole self.old.literals) };
          numbers = record { before = []; at_hand = take lengths.numbers (whole self.old.numbers) };
        } }
    {
        self.literals.take_back(lengths.literals);
        self.numbers.take_back(lengths.numbers);
    }
}
