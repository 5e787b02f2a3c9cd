//! The difference of two adders of the same words, whose gates are made in different ways.
use crate::adder::Adder;
use crate::finding::Adders;
use crate::reduction::{both, either, majority, reduce};
use crate::sum::Sum;
use aig_core::graph::Aig;
use aig_core::literal::{Literal, constant, opposite};
use std::alloc::{AllocError, Global};
use std::test::Fail;

/// The literal that is true where exactly one of two literals is.
fn exclusive(g: &mut Aig, a: Literal, b: Literal) -> Result<Literal, AllocError> {
    let first = both(g, a, opposite(b))?;
    let second = both(g, opposite(a), b)?;
    either(g, first, second)
}

/// A full adder by two exclusive-ors.
fn by_halves(
    g: &mut Aig,
    first: Literal,
    second: Literal,
    third: Literal,
) -> Result<Adder, AllocError> {
    let half = exclusive(g, first, second)?;
    let sum = exclusive(g, half, third)?;
    let two = both(g, first, second)?;
    let more = both(g, half, third)?;
    let carry = either(g, two, more)?;
    Ok(Adder {
        first,
        second,
        third,
        sum,
        carry,
    })
}

/// A full adder whose sum is made of its carry.
fn by_majority(
    g: &mut Aig,
    first: Literal,
    second: Literal,
    third: Literal,
) -> Result<Adder, AllocError> {
    let carry = majority(g, first, second, third)?;
    let one = either(g, first, second)?;
    let some = either(g, one, third)?;
    let only = both(g, some, opposite(carry))?;
    let two = both(g, first, second)?;
    let all = both(g, two, third)?;
    let sum = either(g, only, all)?;
    Ok(Adder {
        first,
        second,
        third,
        sum,
        carry,
    })
}

/// The sum of two words of four inputs each.
fn sum_word(alloc: Global, g: &mut Aig, halves: bool) -> Result<Vec<Literal>, AllocError> {
    let mut word = Vec::new(alloc);
    let mut carry = constant(false);
    for i in 0..4u32 {
        let first = 2 * (1 + i);
        let second = 2 * (5 + i);
        let adder = if halves {
            by_halves(g, first, second, carry)?
        } else {
            by_majority(g, first, second, carry)?
        };
        word.push(adder.sum)?;
        carry = adder.carry;
    }
    Ok(word)
}

/// The difference of the sums of two words that are made in different ways, or in the same way; the lowest
/// place counts 2^28.
fn difference(alloc: Global, g: &mut Aig, same: bool) -> Result<Sum, AllocError> {
    let one = sum_word(alloc, g, true)?;
    let other = sum_word(alloc, g, same)?;
    let weight = 1u32 << 28;
    let mut sum = Sum::new(alloc);
    sum.add_word(&one, weight)?;
    sum.add_word(&other, weight.wrapping_neg())?;
    Ok(sum)
}

#[test]
fn two_adders_agree(rt: HostRuntime) -> Result<(), Fail> {
    let alloc = rt.alloc();
    let mut g = Aig::new(alloc, 8);
    let mut sum = difference(alloc, &mut g, false)?;
    assert!(rt; !sum.is_nothing());
    let mut adders = Adders::new(alloc);
    reduce(&mut g, &mut adders, &mut sum)?;
    assert!(rt; sum.is_nothing());
    Ok(())
}
