//! A level of the error of nets with the same number of outputs, and the network that says whether an error
//! exceeds it.
ghost use Rattle.std.specs.Prelude.{◌≡◌, ◌≤◌, length, IfOk};
ghost use Rattle.bdd_levels.specs.Levels.{TellsLevel, IsLevelOf};

use crate::words::excess;
use bus_nets::word_net::WordNet;
use net_core::net::Net;
use semantics::limits::MOST_OUTPUTS;
use semantics::metric::Metric;
use std::alloc::{AllocError, Global};

/// A level, and the network over the outputs of two nets that says whether their error exceeds it.
#[derive(Drop)]
pub struct Level {
    pub metric: Metric,
    pub k: u128,
    pub network: Net,
}

/// The net whose output says whether the error of its last `width` inputs against the others exceeds `k`.
fn quality(alloc: Global, metric: Metric, width: u32, k: u128) -> Result<Net, AllocError>
    requires { width ≤ MOST_OUTPUTS }
    ensures { IfOk result (TellsLevel metric width k) }
{
    let mut net = WordNet::new(alloc, width + width)?;
    let output = excess(alloc, &mut net, metric, width, k)?;
    let made: Net = net.finish(&[output])?;
    made.see_sound();
    Ok(made)
}

impl Level {
    /// The level `k` of the errors of approximate nets of `exact`.
    pub fn new(alloc: Global, exact: &Net, metric: Metric, k: u128) -> Result<Level, AllocError>
        requires { length exact.now.outputs ≤ MOST_OUTPUTS }
        ensures metric { IfOk result (λ level. level.metric ≡ metric) }
        ensures k { IfOk result (λ level. level.k ≡ k) }
        ensures level { IfOk result (IsLevelOf exact.now) }
    {
        Level::of_width(alloc, exact.outputs(), metric, k)
    }

    /// The level `k` of the errors of words of `width` bits.
    pub fn of_width(alloc: Global, width: u32, metric: Metric, k: u128) -> Result<Level, AllocError>
        requires { width ≤ MOST_OUTPUTS }
        ensures metric { IfOk result (λ level. level.metric ≡ metric) }
        ensures k { IfOk result (λ level. level.k ≡ k) }
        ensures tells { IfOk result (λ level. TellsLevel level.metric width level.k level.network) }
    {
        let network = quality(alloc, metric, width, k)?;
        Ok(Level { metric, k, network })
    }
}
