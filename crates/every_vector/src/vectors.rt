//! Input vectors that are held with the right outputs: the greatest of their errors, and the first vector
//! whose error exceeds a level.
ghost use Rattle.std.specs.Prelude.{◌≡◌, ◌≤◌, ◌<◌, [], length, slice_index_or, IfOk};
ghost use Rattle.semantics.specs.Net.{input_count};
ghost use Rattle.semantics.specs.Error.{net_error};
ghost use Rattle.every_vector.specs.Vectors.{IsTried, IsNoneExceeded, IsFirstGreatestIn};
ghost use Rattle.every_vector.specs.Vectors.{IsEveryVectorHeldUpTo, IsEachVectorHeldUpTo};

use lane_bits::patterns::{MOST_COUNTED_INPUTS, Patterns};
use lane_nets::cone_order::cone_order;
use lane_nets::reference::Reference;
use net_core::items::Bits;
use net_core::net::Net;
use net_errors::compared::Compared;
use proof_semantics::constraint::Constraint;
use semantics::metric::Metric;
use std::alloc::{AllocError, Global};

/// An error, and an input vector that has it.
#[derive(Drop)]
pub struct Attained {
    pub error: u128,
    pub witness: Bits,
}

/// Vector `at`.
fn vector_at(alloc: Global, vectors: &Patterns, at: u64) -> Result<Bits, AllocError>
    requires { at < length vectors.now.vectors }
    ensures is { IfOk result (λ x. x ≡ slice_index_or vectors.now.vectors at []) }
    ensures width { IfOk result (λ x. length x ≡ vectors.now.inputs) }
{
    let mut vector = vec![in alloc; false; vectors.inputs() as usize]?;
    let x = vector.as_mut_slice();
    vectors.get(at, x);
    Bits::from_slice(alloc, x)
}

/// The exact net's outputs at every input vector in counting order, where there are at most `most` inputs.
#[tactic(auto, using(crate::proofs::Tried::every_held))]
pub fn hold_every_vector<'a>(
    alloc: Global,
    exact: &'a Net,
    most: u32,
) -> Result<Option<Reference<'a>>, AllocError>
    requires { most ≤ MOST_COUNTED_INPUTS }
    ensures { IfOk result (IsEveryVectorHeldUpTo most exact.now) }
{
    let inputs = exact.inputs();
    if inputs > most {
        return Ok(None);
    }
    let vectors = Patterns::exhaustive(alloc, inputs)?;
    Ok(Some(Reference::new(alloc, exact, vectors)?))
}

/// The exact net's outputs at every input vector, in an order that is quick to walk, where there are at most
/// `most` inputs.
#[tactic(auto, using(crate::proofs::Tried::each_held))]
pub fn hold_each_vector<'a>(
    alloc: Global,
    exact: &'a Net,
    most: u32,
) -> Result<Option<Reference<'a>>, AllocError>
    requires { most ≤ MOST_COUNTED_INPUTS }
    ensures { IfOk result (IsEachVectorHeldUpTo most exact.now) }
{
    if exact.inputs() > most {
        return Ok(None);
    }
    let order = cone_order(alloc, exact)?;
    let vectors = Patterns::every(alloc, &order)?;
    Ok(Some(Reference::new(alloc, exact, vectors)?))
}

/// The greatest error of the vectors that are held, and the first of them that has it.
pub fn greatest_of(
    alloc: Global,
    nets: &Compared,
    metric: Metric,
    held: &Reference,
) -> Result<Attained, AllocError>
    requires exact { held.now.exact ≡ nets.now.exact }
    requires inputs { held.now.patterns.inputs ≡ input_count nets.now.exact }
    requires some { 0 < length held.now.patterns.vectors }
    ensures greatest { IfOk result
        (λ a. IsFirstGreatestIn (net_error metric nets.now.exact nets.now.approx) held.now.patterns.vectors
        a.error a.witness) }
    ensures width { IfOk result (λ a. length a.witness ≡ input_count nets.now.exact) }
{
    let found = held.greatest_error(alloc, nets.approx(), metric)?;
    Ok(Attained {
        error: found.error,
        witness: vector_at(alloc, held.patterns(), found.at)?,
    })
}

/// The first of the vectors that are held whose error exceeds the bound.
pub fn try_vectors(
    alloc: Global,
    nets: &Compared,
    held: &Reference,
    aim: Constraint,
) -> Result<Option<Bits>, AllocError>
    requires exact { held.now.exact ≡ nets.now.exact }
    requires inputs { held.now.patterns.inputs ≡ input_count nets.now.exact }
    ensures tried { IfOk result
        (IsTried aim nets.now.exact nets.now.approx held.now.patterns.vectors) }
    ensures none { IfOk result
        (IsNoneExceeded aim nets.now.exact nets.now.approx held.now.patterns.vectors) }
{
    match held.first_over(alloc, nets.approx(), aim.metric, aim.bound)? {
        Some(at) => Ok(Some(vector_at(alloc, held.patterns(), at)?)),
        None => Ok(None),
    }
}
