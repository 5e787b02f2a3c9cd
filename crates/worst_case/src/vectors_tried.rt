//! The known vectors, which are tried first.
ghost use Rattle.std.specs.Prelude.{◌≡◌, ◌≤◌, ◌<◌, length, IfOk, OnOk};
ghost use Rattle.semantics.specs.Net.{IsSmall};
ghost use Rattle.worst_case.specs.VectorsTried.{IsTrial, IsHeldFor};

use crate::options::{LANE_INPUTS, TRIALS};
use bdd_core::chance::chance;
use lane_bits::patterns::Patterns;
use lane_nets::reference::Reference;
use net_core::net::Net;
use semantics::limits::MOST_INPUTS;
use std::alloc::{AllocError, Global};

/// Sets `x` to trial vector `j`: all zeros, all ones, and then others.
fn set_trial(j: u32, x: &mut [bool]) {
    for (i, bit) in x.iter_mut().enumerate() {
        *bit = j == 1 || j > 1 && chance(j, i as u64);
    }
}

/// Adds the trial vectors, which are written to `x` one after another.
fn push_trials(set: &mut Patterns, x: &mut [bool]) -> Result<(), AllocError>
    requires { length x.old ≡ set.old.inputs }
    ensures inputs { OnOk result (set.new.inputs ≡ set.old.inputs) }
    ensures some { OnOk result (0 < length set.new.vectors) }
{
    for j in 0..TRIALS {
        set_trial(j, x);
        set.push(x)?;
    }
    Ok(())
}

/// The vectors that are tried: with at most sixteen inputs all in counting order, with more a fixed choice.
pub fn trial_vectors(alloc: Global, inputs: u32) -> Result<Patterns, AllocError>
    requires { inputs ≤ MOST_INPUTS }
    ensures { IfOk result (IsTrial inputs) }
{
    if inputs <= LANE_INPUTS {
        return Patterns::exhaustive(alloc, inputs);
    }
    let mut set = Patterns::new(alloc, inputs);
    let mut x = vec![in alloc; false; inputs as usize]?;
    push_trials(&mut set, &mut x)?;
    Ok(set)
}

/// The exact net's outputs at the vectors that are tried.
#[tactic(auto, using(crate::proofs::Tried::held_for))]
pub fn hold_vectors<'a>(alloc: Global, exact: &'a Net) -> Result<Reference<'a>, AllocError>
    requires { IsSmall exact.now }
    ensures { IfOk result (IsHeldFor exact.now) }
{
    let vectors = trial_vectors(alloc, exact.inputs())?;
    Reference::new(alloc, exact, vectors)
}
