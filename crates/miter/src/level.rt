//! The joint net of two nets at an error level, and the formula that its output is true. Source: miters, as
//! in equivalence checking by SAT.
ghost use Rattle.std.specs.Prelude.{◌≡◌, ◌<◌, ◌≤◌, ◌^◌, length, IfOk};
ghost use Rattle.semantics.specs.Net.{IsSound};
ghost use Rattle.semantics.specs.Error.{IsCandidate};
ghost use Rattle.quality_semantics.specs.Joint.{joint_net};
ghost use Rattle.proof_semantics.specs.Miter.{miter};

use crate::joint::joint;
use cnf_core::cnf::Cnf;
use cnf_core::of_net::of_goal;
use net_core::net::Net;
use net_errors::compared::Compared;
use semantics::metric::Metric;
use std::alloc::{AllocError, Global};

/// A joint net, and the formula that its output is true.
#[derive(Drop)]
pub struct Miter {
    pub net: Net,
    pub formula: Cnf,
}

/// The joint net of two nets at a level, and its formula.
pub fn joint_miter(
    alloc: Global,
    nets: &Compared,
    metric: Metric,
    level: u128,
) -> Result<Miter, AllocError>
    ensures net { IfOk result (λ m. m.net ≡ joint_net nets.now.exact nets.now.approx metric level) }
    ensures formula { IfOk result (λ m. m.formula ≡ miter nets.now.exact nets.now.approx metric level) }
    ensures few_variables { IfOk result (λ m. m.formula.variables < 2 ^ 31) }
{
    let net = joint(alloc, nets.exact(), nets.approx(), metric, level)?;
    let formula = of_goal(alloc, &net)?;
    Ok(Miter { net, formula })
}

/// The formula that some error exceeds the level.
pub fn miter_of(
    alloc: Global,
    nets: &Compared,
    metric: Metric,
    level: u128,
) -> Result<Cnf, AllocError>
    ensures formula { IfOk result (λ f. f ≡ miter nets.now.exact nets.now.approx metric level) }
    ensures few_variables { IfOk result (λ f. f.variables < 2 ^ 31) }
{
    let Miter { formula, .. } = joint_miter(alloc, nets, metric, level)?;
    Ok(formula)
}
