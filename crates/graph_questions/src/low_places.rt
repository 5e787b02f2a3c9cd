//! The literal of the error by a few low places of the outputs, where these are known to be enough.
//!
//! The low places of two words are more than the level apart, and less than 2^places less the level, exactly
//! where the words are more than the level apart and not too far. So the logic of the other outputs is not
//! looked at. Both comparisons begin with the same subtraction, which is made once in a hashed graph. Source:
//! residue arithmetic.
ghost use Rattle.std.specs.Prelude.{◌≡◌, ◌+◌, ◌^◌, ◌≤◌, length, All, IfOk};
ghost use Rattle.semantics.specs.Net.{input_count};
ghost use Rattle.aig_core.specs.Graph.{IsLiteralOf};
ghost use Rattle.aig_core.specs.Grown.{Grows};
ghost use Rattle.graph_questions.specs.Levels.{IsTrueWhereOver, question_of};
ghost use Rattle.graph_questions.specs.LowPlaces.{AreEnough, AreLowOutputs, IsApartLiteral};

use crate::goal::joined;
use aig_core::graph::Aig;
use aig_core::literal::{Literal, opposite};
use aig_core::nets::output_literals;
use bdd_levels::level::Level;
use net_errors::compared::Compared;
use semantics::limits::MOST_OUTPUTS;
use semantics::metric::{Kind, Metric};
use std::alloc::{AllocError, Global};

/// 2 to a number of places.
pub(crate) fn power_of_two(places: u32) -> u128
    requires { places ≤ MOST_OUTPUTS }
    ensures { result ≡ 2 ^ places }
{
    1u128 << places
}

/// The first `places` outputs of the exact net, and behind them those of the approximate net.
fn low_outputs(
    alloc: Global,
    g: &mut Aig,
    nets: &Compared,
    places: u32,
    inputs: &[Literal],
) -> Result<Vec<Literal>, AllocError>
    requires places { places ≤ length nets.now.exact.outputs }
    requires count { length inputs.now ≡ input_count nets.now.exact }
    requires within { All (IsLiteralOf g.old) inputs.now }
    ensures grows { Grows g.old g.new }
    ensures low { IfOk result (λ both. AreLowOutputs g.new nets.now places inputs.now both.items) }
{
    let exact = output_literals(alloc, g, nets.exact(), inputs)?;
    let approx = output_literals(alloc, g, nets.approx(), inputs)?;
    let count = places as usize;
    joined(alloc, &exact[..count], &approx[..count])
}

/// The literal that says whether the two halves of `both`, of `places` literals each, are more than `k`
/// apart.
pub(crate) fn apart_literal(
    alloc: Global,
    g: &mut Aig,
    both: &[Literal],
    places: u32,
    k: u128,
) -> Result<Literal, AllocError>
    requires places { places ≤ MOST_OUTPUTS }
    requires count { length both.now ≡ places + places }
    requires within { All (IsLiteralOf g.old) both.now }
    ensures grows { Grows g.old g.new }
    ensures apart { IfOk result (IsApartLiteral g.new both.now places k) }
{
    let metric = Metric {
        kind: Kind::Abs,
        width: None,
    };
    let level = Level::of_width(alloc, places, metric, k)?;
    let over = output_literals(alloc, g, &level.network, both)?;
    Ok(over[0])
}

/// The literal that is true wherever the error of the approximate net exceeds the level, where so many low
/// places are enough.
pub(crate) fn low_literal(
    alloc: Global,
    g: &mut Aig,
    nets: &Compared,
    level: &Level,
    places: u32,
    inputs: &[Literal],
) -> Result<Literal, AllocError>
    requires enough { AreEnough (question_of nets.now level.now) places }
    requires count { length inputs.now ≡ input_count nets.now.exact }
    requires within { All (IsLiteralOf g.old) inputs.now }
    ensures grows { Grows g.old g.new }
    ensures over { IfOk result (IsTrueWhereOver g.new (question_of nets.now level.now) inputs.now) }
{
    nets.exact();
    let both = low_outputs(alloc, g, nets, places, inputs)?;
    let beyond = apart_literal(alloc, g, &both, places, level.k)?;
    let around = apart_literal(alloc, g, &both, places, power_of_two(places) - 1 - level.k)?;
    g.and(beyond, opposite(around))
}
