//! Literals of AND circuits. Source: AIGER.
ghost use Rattle.std.specs.Prelude.{◌≡◌};
ghost use Rattle.aiger_semantics.specs.Circuit.{negated};

/// Twice a variable; for its opposite, one more.
pub type Literal = u32;

/// The opposite literal.
pub(crate) fn negated(literal: Literal) -> Literal
    ensures { result ≡ negated literal }
{
    if literal % 2 == 0 {
        literal + 1
    } else {
        literal - 1
    }
}
