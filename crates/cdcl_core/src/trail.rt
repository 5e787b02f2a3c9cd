//! The trail: the literals that are true, in the order in which they became so, with the reason of each.
//!
//! A table says of each literal whether it is true, so that this costs one look; going back touches only the
//! literals that are no longer true. A variable that has a value has its place in the trail. A level is its
//! start, the place of its decision: no levels are stored, and the place of a literal says of which level it
//! is. Source: the trail and the implication graph of GRASP, as MiniSat holds them.
ghost use Rattle.std.specs.Prelude.{◌≡◌, ℕ, ◌+◌, ◌-◌, ◌<◌, ◌≤◌, ◌⊎◌, ◌↔◌, true, false, IsTrue, All, ◌^◌};
ghost use Rattle.std.specs.Prelude.{neg_ℤ, take, slice_index_or, [], ◌∷◌, ◌++◌, IfOk, OnOk, OnErr, length};
ghost use Rattle.proof_semantics.specs.Clauses.{IsLiteralOf};
ghost use Rattle.cdcl_core.specs.Placed.{AreTold};
ghost use Rattle.cdcl_core.specs.Explained.{Holds};
ghost use Rattle.cdcl_core.specs.Trail.{IsConsistent, AreLevels, literal_at, reason_at};
ghost use Rattle.cdcl_core.specs.Settled.{IsOpen};

use crate::literal::Literal;
use std::alloc::{AllocError, Global};
use std::marker::Model;

/// The true literals, in the order in which they became true, each with its reason, and the start of each
/// level.
#[derive(Drop)]
pub struct Trail {
    literals: Vec<Literal>,
    places: Vec<usize>,
    told: Vec<bool>,
    reasons: Vec<Option<usize>>,
    starts: Vec<usize>,
}

impl Model for Trail {
    ghost use Rattle.std.specs.Prelude.{◌-◌, length, vec_capacity};
    ghost use Rattle.cdcl_core.specs.Placed.{TrailValue, HasPlaces};

    ghost Value = { TrailValue };

    ghost view = { λ t. record {
      variables = length t.places.items - 1;
      literals = t.literals.items;
      reasons = t.reasons.items;
      starts = t.starts.items;
    } };

    ghost invariant = { λ t. HasPlaces t.places.items t.told.items t.literals.items (record {
      reasons = length t.reasons.items;
      literal_room = vec_capacity t.literals;
      reason_room = vec_capacity t.reasons;
    }) };
}

/// Notes in the table that the literals of the entries from `start` on are true no more.
fn untell(told: &mut Vec<bool>, literals: &[Literal], start: usize)
    requires told { AreTold told.old.items literals.now }
    requires consistent { IsConsistent literals.now }
    ensures told { AreTold told.new.items (take start literals.now) }
    ensures wide { length told.new.items ≡ length told.old.items }
{
    let mut end = literals.len();
    'down: while end > start {
        end -= 1;
        told[literals[end].index()] = false;
    }
}

impl Trail {
    /// The trail without entries, over `variables` variables.
    pub fn new(alloc: Global, variables: u32) -> Result<Trail, AllocError>
        requires { variables < 2 ^ 31 }
        ensures { IfOk result
            (λ trail. trail ≡ record { variables = variables; literals = []; reasons = []; starts = [] }) }
    {
        Ok(Trail {
            literals: Vec::with_capacity(alloc, variables as usize + 2)?,
            places: vec![in alloc; 0; variables as usize + 1]?,
            told: vec![in alloc; false; variables as usize * 2 + 2]?,
            reasons: Vec::with_capacity(alloc, variables as usize + 2)?,
            starts: Vec::new(alloc),
        })
    }

    /// Whether the literal is true.
    pub fn is_true(&self, literal: Literal) -> bool
        requires { IsLiteralOf self.now.variables literal }
        ensures { IsTrue result ↔ Holds self.now.literals literal }
    {
        self.told[literal.index()]
    }

    /// Whether the literal's negation is true.
    pub fn is_false(&self, literal: Literal) -> bool
        requires { IsLiteralOf self.now.variables literal }
        ensures { IsTrue result ↔ Holds self.now.literals (neg_ℤ literal) }
    {
        self.is_true(literal.negated())
    }

    /// Whether the literal's variable has no value.
    pub fn is_open(&self, literal: Literal) -> bool
        requires { IsLiteralOf self.now.variables literal }
        ensures open { result ≡ true → IsOpen (Holds self.now.literals) literal }
        ensures closed { result ≡ false
            → Holds self.now.literals literal ⊎ Holds self.now.literals (neg_ℤ literal) }
    {
        !self.is_true(literal) && !self.is_false(literal)
    }

    /// How many variables there are.
    pub fn variables(&self) -> u32
        requires { self.now.variables < 2 ^ 31 }
        ensures { result ≡ self.now.variables }
    {
        (self.places.len() - 1) as u32
    }

    /// Shows what the type holds: no variable stands twice in the trail, and each is below the number of
    /// variables, so there are few entries.
    pub fn consistent(&self)
        ensures consistent { IsConsistent self.now.literals }
        ensures literals { All (IsLiteralOf self.now.variables) self.now.literals }
        ensures few { length self.now.literals ≤ self.now.variables + 1 }
    {
        let _places = &self.places;
    }

    /// The number of entries.
    pub fn len(&self) -> usize
        ensures { result ≡ length self.now.literals }
    {
        self.literals.len()
    }

    /// The literal of an entry.
    pub fn literal(&self, i: usize) -> Literal
        requires { i < length self.now.literals }
        ensures { result ≡ literal_at self.now.literals i }
    {
        self.literals[i]
    }

    /// The reason of an entry.
    pub fn reason(&self, i: usize) -> Option<usize>
        requires within { i < length self.now.literals }
        requires reasons { length self.now.reasons ≡ length self.now.literals }
        ensures { result ≡ reason_at self.now.reasons i }
    {
        self.reasons[i]
    }

    /// The place of the entry that makes a literal false.
    pub fn place(&self, literal: Literal) -> usize
        requires { Holds self.now.literals (neg_ℤ literal) }
        ensures within { result < length self.now.literals }
        ensures is { literal_at self.now.literals result ≡ neg_ℤ literal }
    {
        self.places[literal.variable()]
    }

    /// The reason of an entry, where there is such an entry.
    pub fn find_reason(&self, i: usize) -> Option<usize> {
        match self.reasons.get(i) {
            Some(reason) => *reason,
            None => None,
        }
    }

    /// The place where the literal's variable got a value last, or 0 where it never had one.
    pub fn find_place(&self, literal: Literal) -> usize {
        match self.places.get(literal.variable()) {
            Some(place) => *place,
            None => 0,
        }
    }

    /// How many levels are open.
    pub fn levels(&self) -> usize
        ensures { result ≡ length self.now.starts }
    {
        self.starts.len()
    }

    /// The place of a level's decision.
    pub fn start(&self, level: usize) -> usize
        requires { level < length self.now.starts }
        ensures { result ≡ slice_index_or self.now.starts level 0 }
    {
        self.starts[level]
    }

    /// The number of levels that open no later than an entry.
    pub fn levels_until(&self, place: usize) -> usize
        requires { AreLevels self.now.literals self.now.starts }
        ensures within { result ≤ length self.now.starts }
        ensures before { All (λ s. s ≤ place) (take result self.now.starts) }
        ensures after { (k : ℕ) → result ≤ k → k < length self.now.starts
            → place < slice_index_or self.now.starts k 0 }
    {
        let mut level = 0;
        'up: while level < self.starts.len() && self.starts[level] <= place {
            level += 1;
        }
        level
    }

    /// Adds a literal that follows by a reason. The call takes no memory.
    pub fn push_implied(&mut self, literal: Literal, reason: usize)
        requires literal { IsLiteralOf self.old.variables literal }
        requires open { IsOpen (Holds self.old.literals) literal }
        ensures { self.new ≡ record self.old {
          literals = self.old.literals ++ literal ∷ [];
          reasons = self.old.reasons ++ Some reason ∷ [];
        } }
    {
        self.places[literal.variable()] = self.literals.len();
        self.literals.push_reserved(literal);
        self.told[literal.index()] = true;
        self.reasons.push_reserved(Some(reason));
    }

    /// Adds a literal that is decided, which opens a level.
    pub fn push_decision(&mut self, literal: Literal) -> Result<(), AllocError>
        requires literal { IsLiteralOf self.old.variables literal }
        requires open { IsOpen (Holds self.old.literals) literal }
        ensures ok { OnOk result (self.new ≡ record self.old {
          literals = self.old.literals ++ literal ∷ [];
          reasons = self.old.reasons ++ None ∷ [];
          starts = self.old.starts ++ length self.old.literals ∷ [];
        }) }
        ensures err { OnErr result (self.new ≡ self.old) }
    {
        self.starts.push(self.literals.len())?;
        self.places[literal.variable()] = self.literals.len();
        self.literals.push_reserved(literal);
        self.told[literal.index()] = true;
        self.reasons.push_reserved(None);
        Ok(())
    }

    /// Closes the levels from number `level` on.
    pub fn close(&mut self, level: usize)
        requires level { level < length self.old.starts }
        ensures { let q = slice_index_or self.old.starts level 0 in self.new ≡ record self.old {
          literals = take q self.old.literals;
          reasons = take q self.old.reasons;
          starts = take level self.old.starts;
        } }
    {
        let start = self.starts[level];
        untell(&mut self.told, &self.literals, start);
        self.literals.truncate(start);
        self.reasons.truncate(start);
        self.starts.truncate(level);
    }
}
