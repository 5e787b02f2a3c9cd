//! The chain of simplifications of a multiplier whose every error is within the bound.
ghost use Rattle.std.specs.Prelude.{◌≤◌};

use crate::metrics::ABSOLUTE;
use crate::nets::product;
use net_core::net::Net;
use proof_semantics::constraint::Constraint;
use std::alloc::{AllocError, Global};
use std::test::Fail;
use synth_core::shrink::shrink;
use worst_case::judge::Judge;

/// Whether no table reads a signal.
fn are_constant(net: &Net) -> bool {
    for t in 0..net.tables() {
        if !net.table(t).pins().is_empty() {
            return false;
        }
    }
    true
}

/// The number of tables that are left of the multiplier, whether all of them are constant, and whether a
/// query was spent.
fn left_of_product(alloc: Global, bound: u128, limit: u64) -> Result<(u32, bool, bool), AllocError>
    requires { 1 ≤ limit }
{
    let net = product(alloc)?;
    let aim = Constraint {
        metric: ABSOLUTE,
        bound,
        limit,
    };
    let shrunk = shrink::<Judge>(alloc, &net, aim)?;
    Ok((
        shrunk.net.tables(),
        are_constant(&shrunk.net),
        shrunk.spent.is_some(),
    ))
}

/// No two products of five bits are further apart than 1,023, so each output becomes a constant, and one
/// conflict is enough.
#[test]
fn a_multiplier_with_a_wide_bound(rt: HostRuntime) -> Result<(), Fail> {
    assert_eq!(rt; left_of_product(rt.alloc(), 1023, 1)?, (10, true, false));
    Ok(())
}
