//! The word of a sum: its lowest places as literals of the graph, made by adders.
//!
//! The literals of each place are added three by three, and what is carried goes to the next place. Source:
//! carry-save adders.
ghost use Rattle.std.specs.Prelude.{◌≡◌, ◌+◌, ◌<◌, ◌≤◌, ◌^◌, length, IfOk, IfSome};
ghost use Rattle.aig_core.specs.Graph.{IsLiteralOf};
ghost use Rattle.aig_core.specs.Grown.{Grows};
ghost use Rattle.literal_sums.specs.Sums.{AgreeAsSums};
ghost use Rattle.literal_sums.specs.Words.{IsMadeOf, IsPlaceTaken, IsWordOf, IsWordTaken};

use crate::adder::Adder;
use crate::sum::{Sum, negative};
use crate::term::Term;
use aig_core::graph::Aig;
use aig_core::literal::{Literal, constant, node_of, opposite};
use std::alloc::{AllocError, Global};

/// How many places a weight has.
const PLACES: u32 = 32;

/// The literal itself where it is one of the graph's, or else the constant false.
pub(crate) fn within(g: &Aig, literal: Literal) -> Literal
    ensures { IsLiteralOf g.now result }
{
    if node_of(literal) < g.nodes() {
        literal
    } else {
        constant(false)
    }
}

/// The literal that is true where exactly one of two literals is.
fn exclusive(g: &mut Aig, a: Literal, b: Literal) -> Result<Literal, AllocError>
    requires a { IsLiteralOf g.old a }
    requires b { IsLiteralOf g.old b }
    ensures grows { Grows g.old g.new }
    ensures ok { IfOk result (IsLiteralOf g.new) }
{
    let first = g.and(a, opposite(b))?;
    let second = g.and(opposite(a), b)?;
    g.or(first, second)
}

/// An adder of three literals, made of new gates.
fn adder_of(
    g: &mut Aig,
    first: Literal,
    second: Literal,
    third: Literal,
) -> Result<Adder, AllocError>
    requires first { IsLiteralOf g.old first }
    requires second { IsLiteralOf g.old second }
    requires third { IsLiteralOf g.old third }
    ensures grows { Grows g.old g.new }
    ensures ok { IfOk result (IsMadeOf g.new first second third) }
{
    let half = exclusive(g, first, second)?;
    let sum = exclusive(g, half, third)?;
    let both = g.and(first, second)?;
    let more = g.and(half, third)?;
    let carry = g.or(both, more)?;
    Ok(Adder {
        first,
        second,
        third,
        sum,
        carry,
    })
}

/// The terms of a sum, where one with a weight of 2^31 or more is the opposite literal, taken away from the
/// constant.
fn signed_terms(alloc: Global, sum: &Sum) -> Result<Vec<Term>, AllocError> {
    let mut terms = Vec::new(alloc);
    let mut fixed = sum.weight(constant(true));
    for term in sum.terms() {
        if term.literal == constant(true) {
            continue;
        }
        if term.weight < 1 << 31 {
            terms.push(*term)?;
        } else {
            fixed = fixed.wrapping_add(term.weight);
            terms.push(Term {
                literal: opposite(term.literal),
                weight: negative(term.weight),
            })?;
        }
    }
    terms.push(Term {
        literal: constant(true),
        weight: fixed,
    })?;
    Ok(terms)
}

/// The literals of the terms whose weight has this place, a power of two.
fn literals_at(alloc: Global, terms: &[Term], place: u32) -> Result<Vec<Literal>, AllocError> {
    let mut literals = Vec::new(alloc);
    for term in terms {
        if term.weight & place != 0 {
            literals.push(term.literal)?;
        }
    }
    Ok(literals)
}

/// Adds three literals, takes them away from what is left by this weight, and gives their sum; the carry goes
/// to the others.
fn add_three(
    g: &mut Aig,
    left: &mut Sum,
    literals: [Literal; 3],
    weight: u32,
    carries: &mut Vec<Literal>,
) -> Result<Literal, AllocError>
    ensures grows { Grows g.old g.new }
    ensures ok { IfOk result (λ _. AgreeAsSums g.new left.new left.old) }
{
    let [first, second, third] = literals;
    let adder = adder_of(g, within(g, first), within(g, second), within(g, third))?;
    if left.go_through(g, &adder, negative(weight))? {
        carries.push(adder.carry)?;
        return Ok(adder.sum);
    }
    Ok(constant(false))
}

/// Adds the literals of a place three by three, and gives the last sum; the carries go to the next place.
fn add_place(
    g: &mut Aig,
    left: &mut Sum,
    literals: &[Literal],
    weight: u32,
    carries: &mut Vec<Literal>,
) -> Result<Literal, AllocError>
    ensures grows { Grows g.old g.new }
    ensures ok { IfOk result (λ _. AgreeAsSums g.new left.new left.old) }
{
    if literals.is_empty() {
        return Ok(constant(false));
    }
    let mut sum = literals[0];
    let mut i = 1;
    while i < literals.len() {
        let third = if i + 1 < literals.len() {
            literals[i + 1]
        } else {
            constant(false)
        };
        sum = add_three(g, left, [sum, literals[i], third], weight, carries)?;
        i += 2;
    }
    Ok(sum)
}

/// Adds the literals of the place of this weight and those that were carried to it, and takes their sum away
/// from what is left.
fn take_place(
    alloc: Global,
    g: &mut Aig,
    left: &mut Sum,
    terms: &[Term],
    weight: u32,
    carried: &mut Vec<Literal>,
) -> Result<Literal, AllocError>
    ensures grows { Grows g.old g.new }
    ensures ok { IfOk result (λ l. IsPlaceTaken g.new weight l left.old left.new) }
{
    let mut literals = literals_at(alloc, terms, weight)?;
    literals.extend_from_slice(carried)?;
    carried.clear();
    let sum = add_place(g, left, &literals, weight, carried)?;
    let literal = within(g, sum);
    left.take(literal, weight)?;
    Ok(literal)
}

/// The weight of a place.
fn weight_of(place: u32) -> u32
    requires { place < 32 }
    ensures { result ≡ 2 ^ place }
{
    1 << place
}

/// Takes the places of the terms away from what is left, from that of the weight 2^shift on, and gives the
/// literal of each.
fn take_places(
    alloc: Global,
    g: &mut Aig,
    left: &mut Sum,
    terms: &[Term],
    shift: u32,
) -> Result<Vec<Literal>, AllocError>
    requires { shift ≤ 32 }
    ensures grows { Grows g.old g.new }
    ensures long { IfOk result (λ word. length word.items + shift ≡ 32) }
    ensures ok { IfOk result (λ word. IsWordTaken g.new shift word.items left.old left.new) }
{
    let mut word = Vec::new(alloc);
    let mut carried = Vec::new(alloc);
    for place in shift..PLACES {
        let literal = take_place(alloc, g, left, terms, weight_of(place), &mut carried)?;
        word.push(literal)?;
    }
    Ok(word)
}

/// The places of a sum from that of the weight 2^shift on, as a word of literals; none where lower ones are
/// left.
pub fn word_of(
    alloc: Global,
    g: &mut Aig,
    sum: &Sum,
    shift: u32,
) -> Result<Option<Vec<Literal>>, AllocError>
    ensures grows { Grows g.old g.new }
    ensures ok { IfOk result (λ some. IfSome some (λ word. IsWordOf g.new sum.now shift word.items)) }
{
    if shift > PLACES {
        return Ok(None);
    }
    let terms = signed_terms(alloc, sum)?;
    let mut left = sum.copy(alloc)?;
    let word = take_places(alloc, g, &mut left, &terms, shift)?;
    if left.is_nothing() {
        Ok(Some(word))
    } else {
        Ok(None)
    }
}
