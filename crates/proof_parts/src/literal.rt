//! Literals. Source: DIMACS.
ghost use Rattle.std.specs.Prelude.{◌≡◌, ◌+◌, ◌<◌, ◌^◌};
ghost use Rattle.proof_semantics.specs.NetClauses.{literal_at};
ghost use Rattle.proof_parts.specs.Literals.{IsLiteral};

/// A variable's number from 1, negative where the variable is to be false.
pub type Literal = i32;

/// The variable of a place, from 0, or its negation.
pub fn literal_at(place: u32, sign: bool) -> Literal
    requires { place + 1 < 2 ^ 31 }
    ensures value { result ≡ literal_at place sign }
    ensures formed { IsLiteral result }
{
    let variable = place as i32 + 1;
    if sign { variable } else { -variable }
}
