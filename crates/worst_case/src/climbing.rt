//! Input vectors near to one with a large error, among which one is looked for whose error exceeds the bound.
//!
//! Where a chain is at its bound, a move is mostly refused by a vector that is near to the one that refused
//! the move before. To try the vectors around it takes some microseconds, and a question to the solver a
//! thousand times as long. Source: hill climbing.
ghost use Rattle.std.specs.Prelude.{◌≡◌, ◌<◌, ◌≤◌, length, IfOk, IfSome, OnOk};
ghost use Rattle.semantics.specs.Net.{input_count};
ghost use Rattle.worst_case.specs.Maximum.{IsAttained};

use crate::options::MOST_CLIMBED;
use every_vector::vectors::{Attained, greatest_of};
use lane_bits::patterns::Patterns;
use lane_nets::reference::Reference;
use net_core::items::Bits;
use net_errors::compared::Compared;
use net_errors::net_error::error_at;
use proof_semantics::constraint::Constraint;
use semantics::limits::MOST_INPUTS;
use semantics::metric::Metric;
use std::alloc::{AllocError, Global};

/// Adds the vectors that differ from `x` in one input from `first` on.
fn push_flipped(set: &mut Patterns, x: &mut [bool], first: usize) -> Result<(), AllocError>
    requires { length x.old ≡ set.old.inputs }
    ensures width { length x.new ≡ length x.old }
    ensures inputs { OnOk result (set.new.inputs ≡ set.old.inputs) }
    ensures some { OnOk result (length set.old.vectors ≤ length set.new.vectors) }
{
    for i in first..x.len() {
        x[i] = !x[i];
        set.push(x)?;
        x[i] = !x[i];
    }
    Ok(())
}

/// A vector, and those that differ from it in one input.
fn around(alloc: Global, start: &[bool]) -> Result<Patterns, AllocError>
    requires { length start.now ≤ MOST_INPUTS }
    ensures inputs { IfOk result (λ set. set.inputs ≡ length start.now) }
    ensures some { IfOk result (λ set. 0 < length set.vectors) }
{
    let mut set = Patterns::new(alloc, start.len() as u32);
    let mut x = start.to_vec(alloc)?;
    set.push(&x)?;
    push_flipped(&mut set, &mut x, 0)?;
    Ok(set)
}

/// A vector, and those that differ from it in two inputs.
fn farther_around(alloc: Global, start: &[bool]) -> Result<Patterns, AllocError>
    requires { length start.now ≤ MOST_INPUTS }
    ensures inputs { IfOk result (λ set. set.inputs ≡ length start.now) }
    ensures some { IfOk result (λ set. 0 < length set.vectors) }
{
    let mut set = Patterns::new(alloc, start.len() as u32);
    let mut x = start.to_vec(alloc)?;
    set.push(&x)?;
    for i in 0..x.len() {
        x[i] = !x[i];
        push_flipped(&mut set, &mut x, i + 1)?;
        x[i] = !x[i];
    }
    Ok(set)
}

/// The greatest error of these vectors, where it is larger than one that is known.
fn greater_of(
    alloc: Global,
    nets: &Compared,
    metric: Metric,
    set: Patterns,
    known: u128,
) -> Result<Option<Attained>, AllocError>
    requires inputs { set.inputs ≡ input_count nets.now.exact }
    requires some { 0 < length set.vectors }
    ensures { IfOk result (λ found. IfSome found (IsAttained metric nets.now)) }
{
    let held = Reference::new(alloc, nets.exact(), set)?;
    let found = greatest_of(alloc, nets, metric, &held)?;
    Ok(if found.error > known {
        Some(found)
    } else {
        None
    })
}

/// A vector near to this one with a larger error.
fn step(
    alloc: Global,
    nets: &Compared,
    metric: Metric,
    from: &Attained,
) -> Result<Option<Attained>, AllocError>
    requires { IsAttained metric nets.now from.now }
    ensures { IfOk result (λ found. IfSome found (IsAttained metric nets.now)) }
{
    let x = from.witness.as_slice();
    if x.len() > MOST_INPUTS as usize {
        return Ok(None);
    }
    let near = around(alloc, x)?;
    let found = greater_of(alloc, nets, metric, near, from.error)?;
    if found.is_some() {
        return Ok(found);
    }
    let far = farther_around(alloc, x)?;
    greater_of(alloc, nets, metric, far, from.error)
}

/// Goes from a vector to one with a larger error nearby, and so on, until no vector nearby has a larger one,
/// or the error exceeds the bound.
pub(crate) fn climb(
    alloc: Global,
    nets: &Compared,
    aim: Constraint,
    start: &[bool],
) -> Result<Attained, AllocError>
    requires width { length start.now ≡ input_count nets.now.exact }
    ensures { IfOk result (IsAttained aim.metric nets.now) }
{
    let mut best = Attained {
        error: error_at(alloc, nets, aim.metric, start)?,
        witness: Bits::from_slice(alloc, start)?,
    };
    for _ in 0..MOST_CLIMBED {
        if best.error > aim.bound {
            return Ok(best);
        }
        match step(alloc, nets, aim.metric, &best)? {
            Some(better) => best = better,
            None => return Ok(best),
        }
    }
    Ok(best)
}
