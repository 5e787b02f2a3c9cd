//! The hints of a step as they grow: unit propagation, one clause at a time.
ghost use Rattle.std.specs.Prelude.{◌≡◌, ◌+◌, ◌<◌, ◌^◌, [], ◌∷◌, not, neg_ℤ, IfOk, OnOk};
ghost use Rattle.proof_semantics.specs.NetClauses.{literal_at};
ghost use Rattle.proof_semantics.specs.Clauses.{has_literal};
ghost use Rattle.proof_parts.specs.Literals.{IsLiteral};
ghost use Rattle.merge_log.specs.Chains.{started, implied, ended_with};

use net_core::items::Items;
use proof_parts::clause::Lits;
use proof_parts::literal::{Literal, literal_at};
use proof_parts::log::Ids;
use std::alloc::{AllocError, Global};
use std::marker::Model;

/// The hints so far, the literals that are true behind them, and whether two of these literals are opposite.
#[derive(Drop)]
pub(crate) struct HintChain {
    hints: Ids,
    literals: Lits,
    ended: bool,
}

impl Model for HintChain {
    ghost use Rattle.merge_log.specs.Chains.{ChainValue};

    ghost Value = { ChainValue };

    ghost view = { λ a. record { hints = a.hints; literals = a.literals; ended = a.ended } };
}

/// The clause of these two literals.
pub(crate) fn two_literals(alloc: Global, one: Literal, other: Literal) -> Result<Lits, AllocError>
    requires one { IsLiteral one }
    requires other { IsLiteral other }
    ensures { IfOk result (λ literals. literals ≡ one ∷ other ∷ []) }
{
    Lits::from_slice(alloc, &[one, other])
}

/// The opposite literal.
fn opposite(literal: Literal) -> Literal
    requires { IsLiteral literal }
    ensures { result ≡ neg_ℤ literal }
{
    -literal
}

impl HintChain {
    /// No hint yet: the variable of place s has the value `sign`, and the variable of place u the opposite
    /// value.
    pub(crate) fn new(alloc: Global, s: u32, u: u32, sign: bool) -> Result<HintChain, AllocError>
        requires s { s + 1 < 2 ^ 31 }
        requires u { u + 1 < 2 ^ 31 }
        ensures { IfOk result (λ c. c ≡ started (literal_at s sign) (literal_at u (not sign))) }
    {
        let literals = two_literals(alloc, literal_at(s, sign), literal_at(u, !sign))?;
        Ok(HintChain {
            hints: Items::new(alloc),
            literals,
            ended: false,
        })
    }

    /// Whether the literal is true behind the hints.
    fn knows(&self, literal: Literal) -> bool
        ensures { result ≡ has_literal self.now.literals literal }
    {
        self.literals.as_slice().contains(&literal)
    }

    /// Adds the hint `id`, whose clause gives the variable of a place this value, since its other literals
    /// are false.
    pub(crate) fn imply(&mut self, id: u64, place: u32, sign: bool) -> Result<(), AllocError>
        requires { place + 1 < 2 ^ 31 }
        ensures { OnOk result (self.new ≡ implied self.old id (literal_at place sign)) }
    {
        self.imply_literal(id, literal_at(place, sign))
    }

    /// Adds the hint `id`, whose clause makes the literal true.
    fn imply_literal(&mut self, id: u64, literal: Literal) -> Result<(), AllocError>
        requires { IsLiteral literal }
        ensures { OnOk result (self.new ≡ implied self.old id literal) }
    {
        if self.ended || self.knows(literal) {
            return Ok(());
        }
        let against = self.knows(opposite(literal));
        self.hints.push(id)?;
        self.literals.push(literal)?;
        self.ended = against;
        Ok(())
    }

    /// The hints, where the last one is `id`, whose clause is false, unless a conflict came before.
    pub(crate) fn finish(self, id: u64) -> Result<Ids, AllocError>
        ensures { IfOk result (λ hints. hints ≡ ended_with self id) }
    {
        let HintChain {
            mut hints,
            ended,
            ..
        } = self;
        if !ended {
            hints.push(id)?;
        }
        Ok(hints)
    }
}
