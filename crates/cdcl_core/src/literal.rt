//! A literal as the solver holds it: a variable from 1 with a sign; in contracts, an integer.
//!
//! A literal is held as the place of its watchers, so that a look at its value or its watchers costs no
//! arithmetic. Source: MiniSat.
ghost use Rattle.std.specs.Prelude.{◌≡◌, ◌<◌, ◌^◌, ◌↔◌, if◌then◌else◌, int_lt, IsTrue, pos, neg_ℤ, nat_abs};
ghost use Rattle.proof_semantics.specs.Clauses.{IsLiteralOf};
ghost use Rattle.proof_parts.specs.Literals.{IsLiteral};
ghost use Rattle.cdcl_core.specs.Watched.{index_of};

use std::marker::Model;

/// A variable's number from 1, doubled, and one more where the variable is to be true.
#[derive(Clone, Copy, Drop)]
pub struct Literal {
    index: u32,
}

impl Model for Literal {
    ghost use Rattle.std.specs.Prelude.{ℤ, ◌≤◌};
    ghost use Rattle.cdcl_core.specs.Watched.{index_of, literal_of};

    ghost Value = { ℤ };

    ghost view = { λ l. literal_of l.index };

    ghost inverse = { λ z. record { index = index_of z } };

    ghost invariant = { λ l. 2 ≤ l.index };
}

impl Literal {
    /// The literal with this number in a formula or a log.
    pub fn new(code: i32) -> Self
        requires { IsLiteral code }
        ensures { result ≡ code }
    {
        let variable = code.unsigned_abs();
        Literal {
            index: variable * 2 + (if code > 0 { 1 } else { 0 }),
        }
    }

    /// The literal that is true where the variable has this value.
    pub fn of(variable: u32, value: bool) -> Self
        requires variable { 0 < variable }
        requires small { variable < 2 ^ 31 }
        ensures value { result ≡ (if value then pos variable else neg_ℤ (pos variable)) }
        ensures formed { IsLiteralOf variable result }
    {
        Literal {
            index: variable * 2 + (if value { 1 } else { 0 }),
        }
    }

    /// The number of the literal in formulas and logs.
    pub fn code(self) -> i32
        ensures value { result ≡ self }
        ensures formed { IsLiteral result }
    {
        let variable = (self.index / 2) as i32;
        if self.sign() { variable } else { -variable }
    }

    /// The number of its variable, from 1.
    pub fn variable(self) -> usize
        ensures value { result ≡ nat_abs self }
        ensures positive { 0 < result }
        ensures small { result < 2 ^ 31 }
    {
        (self.index / 2) as usize
    }

    /// Whether the variable is to be true.
    pub fn sign(self) -> bool
        ensures { result ≡ int_lt (pos 0) self }
    {
        self.index % 2 == 1
    }

    /// The literal of the same variable with the other sign.
    pub fn negated(self) -> Literal
        ensures { result ≡ neg_ℤ self }
    {
        let sign = self.index % 2;
        Literal {
            index: self.index - sign + (1 - sign),
        }
    }

    /// Whether both are the same literal.
    pub fn is(self, other: Literal) -> bool
        ensures { IsTrue result ↔ (self ≡ other) }
    {
        self.index == other.index
    }

    /// The place at which the watchers of the literal are held.
    pub fn index(self) -> usize
        ensures { result ≡ index_of self }
    {
        self.index as usize
    }
}
