//! The literal that says where a change of a net gives its signal another value.
ghost use Rattle.std.specs.Prelude.{◌≡◌, ◌<◌, length, All, IfOk};
ghost use Rattle.semantics.specs.Net.{input_count, signal_count};
ghost use Rattle.aig_core.specs.Graph.{IsLiteralOf};
ghost use Rattle.aig_core.specs.Grown.{Grows};
ghost use Rattle.graph_questions.specs.Differences.{IsExclusiveOf, IsDifferenceOf};

use aig_core::graph::Aig;
use aig_core::literal::{Literal, opposite};
use aig_core::nets::signal_literals;
use net_core::net::Net;
use net_search::judging::Change;
use std::alloc::{AllocError, Global};

/// The literal that is true where exactly one of two literals is.
fn exclusive(g: &mut Aig, a: Literal, b: Literal) -> Result<Literal, AllocError>
    requires a { IsLiteralOf g.old a }
    requires b { IsLiteralOf g.old b }
    ensures grows { Grows g.old g.new }
    ensures value { IfOk result (IsExclusiveOf g.new a b) }
{
    let first = g.and(a, opposite(b))?;
    let second = g.and(opposite(a), b)?;
    g.or(first, second)
}

/// The literal that is true where the signal of a change has one value in the net before the change and
/// another in the net after it.
pub(crate) fn difference(
    alloc: Global,
    g: &mut Aig,
    change: &Change,
    after: &Net,
    inputs: &[Literal],
) -> Result<Literal, AllocError>
    requires before_count { length inputs.now ≡ input_count change.now.before.now }
    requires after_count { length inputs.now ≡ input_count after.now }
    requires within { All (IsLiteralOf g.old) inputs.now }
    requires in_before { change.now.signal < signal_count change.now.before.now }
    requires in_after { change.now.signal < signal_count after.now }
    ensures grows { Grows g.old g.new }
    ensures value { IfOk result (IsDifferenceOf g.new change.now after.now inputs.now) }
{
    let at = change.signal as usize;
    let before = signal_literals(alloc, g, change.before, inputs)?;
    let behind = signal_literals(alloc, g, after, inputs)?;
    exclusive(g, before[at], behind[at])
}
