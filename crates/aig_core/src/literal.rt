//! Literals: nodes with a sign. Source: AIGER's literals.
ghost use Rattle.std.specs.Prelude.{◌≡◌, ◌/◌, ◌%◌, ◌==◌, if◌then◌else◌};
ghost use Rattle.aig_core.specs.Grown.{IsOppositeOf, opposite_of};

/// Twice a node's number, and one more where its value is turned over.
pub type Literal = u32;

/// The literal of a constant.
pub fn constant(value: bool) -> Literal
    ensures { result ≡ (if value then 1 else 0) }
{
    if value { 1 } else { 0 }
}

/// The node of a literal.
pub fn node_of(literal: Literal) -> u32
    ensures { result ≡ literal / 2 }
{
    literal / 2
}

/// Whether the value of the literal's node is turned over.
pub fn is_negative(literal: Literal) -> bool
    ensures { result ≡ (literal % 2 == 1) }
{
    literal % 2 == 1
}

/// The literal of the opposite value.
pub fn opposite(literal: Literal) -> Literal
    ensures value { IsOppositeOf literal result }
    ensures number { result ≡ opposite_of literal }
{
    if is_negative(literal) {
        literal - 1
    } else {
        literal + 1
    }
}
