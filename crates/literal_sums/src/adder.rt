//! Full adders of a hashed graph: three literals, their sum and their carry.
//!
//! However its gates are made, it is seen by the eight values of the three literals that the other two are
//! their sum and their carry. Source: functional matching over cuts.
ghost use Rattle.std.specs.Prelude.{◌≡◌, ◌/◌, ◌%◌, ℕ, Bool, Some};
ghost use Rattle.std.specs.Bool.{OnTrue};
ghost use Rattle.semantics.specs.Value.{Assignment};
ghost use Rattle.aig_core.specs.Graph.{literal_value};
ghost use Rattle.literal_sums.specs.Adders.{AreInputsAt, IsAdder, IsAdderAt, IsBoth, IsInputKnown, IsKnownAt};
ghost use Rattle.literal_sums.specs.Sums.{HasConstant};
ghost use Rattle.literal_sums.specs.Adders.{IsTurned, bit, inputs};

use aig_core::gate::Node;
use aig_core::graph::Aig;
use aig_core::literal::{Literal, is_negative, node_of};

/// How many gates deep an adder is looked through.
const MOST_DEPTH: u32 = 6;

/// Three literals, and two that are said to be their sum and their carry. A half adder has the constant false
/// as its third.
#[derive(Clone, Copy)]
pub struct Adder {
    pub first: Literal,
    pub second: Literal,
    pub third: Literal,
    pub sum: Literal,
    pub carry: Literal,
}

/// The values of the three inputs of an adder.
#[derive(Clone, Copy)]
struct Inputs {
    first: bool,
    second: bool,
    third: bool,
}

/// The value of a literal of the same node as an input with this value.
fn value_beside(literal: Literal, input: Literal, value: bool) -> bool
    requires { literal / 2 ≡ input / 2 }
    ensures { (v : Assignment) → literal_value v input ≡ value → literal_value v literal ≡ result }
{
    if literal == input { value } else { !value }
}

/// The value of a constant, and of a literal that is an input of the adder or its opposite, where the inputs
/// have these values.
fn input_value(adder: &Adder, at: Inputs, literal: Literal) -> Option<bool>
    ensures { IsInputKnown adder.now at literal result }
{
    if node_of(literal) == 0 {
        Some(is_negative(literal))
    } else if node_of(literal) == node_of(adder.first) {
        Some(value_beside(literal, adder.first, at.first))
    } else if node_of(literal) == node_of(adder.second) {
        Some(value_beside(literal, adder.second, at.second))
    } else if node_of(literal) == node_of(adder.third) {
        Some(value_beside(literal, adder.third, at.third))
    } else {
        None
    }
}

/// The conjunction of two values, of which one may not be known.
fn both(left: Option<bool>, right: Option<bool>) -> Option<bool>
    ensures { IsBoth left right result }
{
    match left {
        Some(false) => Some(false),
        Some(true) => right,
        None => match right {
            Some(false) => Some(false),
            _ => None,
        },
    }
}

/// A value, or the opposite one, if it is known.
fn turned(value: Option<bool>, turn: bool) -> Option<bool>
    ensures { IsTurned value turn result }
{
    match value {
        Some(value) => Some(value != turn),
        None => None,
    }
}

/// Whether a value is known to be this one.
fn is_known(value: Option<bool>, wanted: bool) -> bool
    ensures { OnTrue result (value ≡ Some wanted) }
{
    match value {
        Some(value) => value == wanted,
        None => false,
    }
}

/// The value of a literal where the inputs of the adder have these values, if it is known from the few gates
/// between.
fn value_above(g: &Aig, adder: &Adder, at: Inputs, literal: Literal, depth: u32) -> Option<bool>
    ensures { IsKnownAt g.now adder.now at literal result }
{
    let input = input_value(adder, at, literal);
    if input.is_some() {
        return input;
    }
    if depth == 0 || node_of(literal) >= g.nodes() {
        return None;
    }
    match g.node(node_of(literal)) {
        Node::And(left, right) => {
            let first = value_above(g, adder, at, left, depth - 1);
            if is_known(first, false) {
                return turned(both(first, None), is_negative(literal));
            }
            let second = value_above(g, adder, at, right, depth - 1);
            turned(both(first, second), is_negative(literal))
        }
        _ => None,
    }
}

/// Whether the inputs of an adder never have these values, since they are constants or of the same node.
fn is_excluded(adder: &Adder, at: Inputs) -> bool
    ensures { OnTrue result ((v : Assignment) → HasConstant v → AreInputsAt v adder.now at → ⊥) }
{
    is_known(input_value(adder, at, adder.first), !at.first)
        || is_known(input_value(adder, at, adder.second), !at.second)
        || is_known(input_value(adder, at, adder.third), !at.third)
}

/// 1 for true, 0 for false.
fn as_number(value: bool) -> u32
    ensures { result ≡ bit value }
{
    if value { 1 } else { 0 }
}

/// Whether the sum and the carry are those of the inputs where these have the given values.
fn is_adder_at(g: &Aig, adder: &Adder, first: bool, second: bool, third: bool) -> bool
    ensures { OnTrue result (IsAdderAt g.now adder.now (inputs first second third)) }
{
    let at = Inputs {
        first,
        second,
        third,
    };
    if is_excluded(adder, at) {
        return true;
    }
    let count = as_number(first) + as_number(second) + as_number(third);
    is_known(
        value_above(g, adder, at, adder.sum, MOST_DEPTH),
        count % 2 == 1,
    ) && is_known(
        value_above(g, adder, at, adder.carry, MOST_DEPTH),
        2 <= count,
    )
}

/// The same at both values of the third input.
fn is_adder_at_two(g: &Aig, adder: &Adder, first: bool, second: bool) -> bool
    ensures { OnTrue result ((third : Bool) → IsAdderAt g.now adder.now (inputs first second third)) }
{
    is_adder_at(g, adder, first, second, false) && is_adder_at(g, adder, first, second, true)
}

/// The same at all values of the second and the third input.
fn is_adder_at_four(g: &Aig, adder: &Adder, first: bool) -> bool
    ensures { OnTrue result ((second third : Bool) → IsAdderAt g.now adder.now (inputs first second third)) }
{
    is_adder_at_two(g, adder, first, false) && is_adder_at_two(g, adder, first, true)
}

/// Whether the sum and the carry are those of the three inputs, as far as is seen through a few gates.
pub fn is_adder(g: &Aig, adder: &Adder) -> bool
    ensures { OnTrue result (IsAdder g.now adder.now) }
{
    is_adder_at_four(g, adder, false) && is_adder_at_four(g, adder, true)
}
