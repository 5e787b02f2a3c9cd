//! The half adder's graph at many patterns, all `00` but the last, which is `11`: only there the carry is
//! true, and the sum is true nowhere.
ghost use Rattle.std.specs.Prelude.{◌≡◌, ◌*◌, ◌<◌, length, IfOk};
ghost use Rattle.aig_core.specs.Graph.{IsLiteralOf};

use crate::sim::Sim;
use aig_core::graph::Aig;
use aig_core::literal::{Literal, opposite};
use lane_bits::kernels::{first_set, word_count};
use lane_bits::patterns::Patterns;
use std::alloc::{AllocError, Global};
use std::test::Fail;

/// The graph, and the literals of its outputs.
#[derive(Drop)]
struct HalfAdder {
    graph: Aig,
    sum: Literal,
    carry: Literal,
}

fn half_adder(alloc: Global) -> Result<HalfAdder, AllocError>
    ensures inputs { IfOk result (λ h. h.graph.inputs ≡ 2) }
    ensures sum { IfOk result (λ h. IsLiteralOf h.graph h.sum) }
    ensures carry { IfOk result (λ h. IsLiteralOf h.graph h.carry) }
{
    let mut graph = Aig::new(alloc, 2);
    let a = graph.input(0);
    let b = graph.input(1);
    let carry = graph.and(a, b)?;
    let either = graph.or(a, b)?;
    let sum = graph.and(either, opposite(carry))?;
    Ok(HalfAdder { graph, sum, carry })
}

pub(crate) fn patterns(alloc: Global, count: u64) -> Result<Patterns, AllocError>
    ensures inputs { IfOk result (λ s. s.inputs ≡ 2) }
    ensures count { IfOk result (λ s. length s.vectors ≡ count) }
{
    let mut set = Patterns::new(alloc, 2);
    for p in 0..count {
        let last = p == count - 1;
        set.push(&[last, last])?;
    }
    Ok(set)
}

/// The first pattern at which a literal is true.
pub(crate) fn first_true(
    alloc: Global,
    sim: &Sim,
    literal: Literal,
    count: u64,
) -> Result<Option<u64>, AllocError>
    requires literal { literal < 2 * sim.now.nodes }
    requires count { count ≡ sim.now.count }
{
    let mut row = vec![in alloc; 0; word_count(count) as usize]?;
    sim.row(literal, &mut row);
    Ok(first_set(&row, count))
}

/// The first of `count` patterns at which the sum is true, and the first at which the carry is true.
fn firsts(alloc: Global, count: u64) -> Result<(Option<u64>, Option<u64>), AllocError> {
    let adder = half_adder(alloc)?;
    let patterns = patterns(alloc, count)?;
    let mut sim = Sim::reserve(alloc, &adder.graph, &patterns)?;
    sim.run(&adder.graph, &patterns);
    let sum = first_true(alloc, &sim, adder.sum, count)?;
    let carry = first_true(alloc, &sim, adder.carry, count)?;
    Ok((sum, carry))
}

#[test]
fn half_adder_at_many_patterns(rt: HostRuntime) -> Result<(), Fail> {
    assert_eq!(rt; firsts(rt.alloc(), 0)?, (None, None));
    assert_eq!(rt; firsts(rt.alloc(), 1)?, (None, Some(0)));
    assert_eq!(rt; firsts(rt.alloc(), 511)?, (None, Some(510)));
    assert_eq!(rt; firsts(rt.alloc(), 512)?, (None, Some(511)));
    assert_eq!(rt; firsts(rt.alloc(), 513)?, (None, Some(512)));
    Ok(())
}
