//! Clauses and lists of clauses.
ghost use Rattle.std.specs.Prelude.{◌≡◌, ◌<◌, ◌==◌, [], ◌∷◌, ◌++◌, length, slice_index_or, if◌then◌else◌};
ghost use Rattle.std.specs.Prelude.{IfOk, OnOk, OnErr};
ghost use Rattle.proof_semantics.specs.Clauses.{has_literal};
ghost use Rattle.proof_parts.specs.Literals.{IsLiteral, AreLiterals};

use crate::literal::Literal;
use net_parts::items::Items;
use smallvec::SmallVec;
use std::alloc::{AllocError, Global};
use std::marker::Model;

/// A list of clauses.
pub type ClauseList = Items<Lits>;

/// The literals of a clause, in their order; most clauses are short and take no memory of their own.
#[derive(Drop)]
pub struct Lits {
    literals: SmallVec<Literal, 8>,
}

impl Model for Lits {
    ghost use Rattle.std.specs.Prelude.{List, ℤ};
    ghost use Rattle.proof_parts.specs.Literals.{AreLiterals};

    ghost Value = { List ℤ };

    ghost view = { λ a. a.literals.items };

    ghost invariant = { λ a. AreLiterals a.literals.items };
}

impl Lits {
    /// The empty clause, which takes no memory.
    pub fn new(alloc: Global) -> Lits
        ensures { result ≡ [] }
    {
        Lits {
            literals: SmallVec::new(alloc),
        }
    }

    /// The empty clause, with room for `room` literals.
    pub fn with_room(alloc: Global, room: usize) -> Result<Lits, AllocError>
        ensures { IfOk result (λ clause. clause ≡ []) }
    {
        let literals = SmallVec::with_capacity(alloc, room)?;
        Ok(Lits { literals })
    }

    /// The clause of these literals.
    pub fn from_slice(alloc: Global, literals: &[Literal]) -> Result<Lits, AllocError>
        requires { AreLiterals literals.now }
        ensures { IfOk result (λ clause. clause ≡ literals.now) }
    {
        let literals = SmallVec::from_slice(alloc, literals)?;
        Ok(Lits { literals })
    }

    /// Adds a literal at the end.
    pub fn push(&mut self, literal: Literal) -> Result<(), AllocError>
        requires { IsLiteral literal }
        ensures ok { OnOk result (self.new ≡ self.old ++ literal ∷ []) }
        ensures err { OnErr result (self.new ≡ self.old) }
    {
        self.literals.push(literal)?;
        Ok(())
    }

    /// Adds a literal at the end, unless it stands in the clause already.
    pub fn add(&mut self, literal: Literal) -> Result<(), AllocError>
        requires { IsLiteral literal }
        ensures ok { OnOk result (self.new
            ≡ (if has_literal self.old literal then self.old else self.old ++ literal ∷ [])) }
        ensures err { OnErr result (self.new ≡ self.old) }
    {
        if self.as_slice().contains(&literal) {
            return Ok(());
        }
        self.push(literal)
    }

    /// How many literals the clause has.
    pub fn len(&self) -> usize
        ensures { result ≡ length self.now }
    {
        self.as_slice().len()
    }

    /// Whether the clause has no literals.
    pub fn is_empty(&self) -> bool
        ensures { result ≡ (length self.now == 0) }
    {
        self.as_slice().is_empty()
    }

    /// The literal at index `i`, from 0.
    pub fn get(&self, i: usize) -> &Literal
        requires { i < length self.now }
        ensures value { result.now ≡ slice_index_or self.now i result.now }
        ensures formed { IsLiteral result.now }
    {
        &self.as_slice()[i]
    }

    /// The literals.
    pub fn as_slice(&self) -> &[Literal]
        ensures value { result.now ≡ self.now }
        ensures formed { AreLiterals self.now }
    {
        self.literals.as_slice()
    }
}
