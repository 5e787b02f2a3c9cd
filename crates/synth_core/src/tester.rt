//! What moves are judged by, over the whole chain.
ghost use Rattle.std.specs.Prelude.{◌≡◌, IfOk};
ghost use Rattle.semantics.specs.Net.{IsSmall};
ghost use Rattle.synth_core.specs.AllowedMoves.{IsPool};

use lane_bits::patterns::Patterns;
use net_core::net::Net;
use net_search::judging::Judging;
use proof_semantics::constraint::Constraint;
use semantics::limits::FEW_INPUTS;
use std::alloc::{AllocError, Global};

/// What is asked of a moved net, who judges it against the exact net, and the vectors that are known to break
/// moves.
#[derive(Drop)]
pub(crate) struct Tester<J> {
    pub(crate) aim: Constraint,
    pub(crate) judge: J,
    pub(crate) pool: Patterns,
}

/// The vectors to begin with: all vectors where there are few inputs, and else none.
fn first_pool(alloc: Global, net: &Net) -> Result<Patterns, AllocError>
    requires { IsSmall net.now }
    ensures { IfOk result (IsPool net.now) }
{
    let inputs = net.inputs();
    if inputs <= FEW_INPUTS {
        return Patterns::exhaustive(alloc, inputs);
    }
    Ok(Patterns::new(alloc, inputs))
}

/// What moves are judged by at the beginning of a chain.
pub(crate) fn tester_for<'a, J: Judging<'a>>(
    alloc: Global,
    exact: &'a Net,
    aim: Constraint,
) -> Result<Tester<J>, AllocError>
    requires small { IsSmall exact.now }
    requires takes { J.takes exact.now }
    ensures aim { IfOk result (λ tester. tester.aim ≡ aim) }
    ensures judge { IfOk result (λ tester. J.exact tester.judge ≡ exact.now) }
    ensures pool { IfOk result (λ tester. IsPool exact.now tester.pool) }
{
    Ok(Tester {
        aim,
        judge: J::begin(alloc, exact)?,
        pool: first_pool(alloc, exact)?,
    })
}
