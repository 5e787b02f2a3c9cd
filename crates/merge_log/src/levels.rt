//! The level of each signal of a net: 0 for an input, and for a table one more than the greatest level of its
//! pins.
ghost use Rattle.std.specs.Prelude.{◌≡◌, ◌<◌, ◌≤◌, ℕ, length, replicate, slice_index_or, All, IfOk};
ghost use Rattle.semantics.specs.Net.{input_count, signal_count};
ghost use Rattle.merge_log.specs.Levels.{AreLevels, highest};

use net_core::items::Signal;
use net_core::net::Net;
use std::alloc::{AllocError, Global};

/// The greatest of the levels of these signals.
#[tactic(auto, using(crate::proofs::LevelSteps::highest_turn))]
pub(crate) fn highest(levels: &[u32], signals: &[Signal]) -> u32
    requires { All (λ s. s < length levels.now) signals.now }
    ensures { result ≡ highest levels.now signals.now }
{
    let mut level = 0;
    for s in signals {
        level = level.max(levels[*s as usize]);
    }
    level
}

/// `count` zeros.
fn zeros(alloc: Global, count: usize) -> Result<Vec<u32>, AllocError>
    ensures { IfOk result (λ zeros. zeros.items ≡ replicate count 0) }
{
    Ok(vec![in alloc; 0; count]?)
}

/// The level of each signal.
pub(crate) fn levels(alloc: Global, net: &Net) -> Result<Vec<u32>, AllocError>
    ensures count { IfOk result (λ levels. length levels.items ≡ signal_count net.now) }
    ensures levels { IfOk result (λ levels. AreLevels (input_count net.now) net.now.tables levels.items) }
{
    let inputs = net.inputs() as usize;
    let mut levels = zeros(alloc, net.signals() as usize)?;
    for i in net.order() {
        let below = highest(&levels, net.table(*i).pins().as_slice());
        levels[inputs + *i as usize] = below + 1;
    }
    Ok(levels)
}

/// The greatest level.
#[tactic(auto, using(crate::proofs::LevelSteps::depth_turn, crate::proofs::LevelSteps::depth_all))]
pub(crate) fn depth(levels: &[u32]) -> u32
    ensures { (s : ℕ) → slice_index_or levels.now s 0 ≤ result }
{
    let mut depth = 0;
    for level in levels {
        depth = depth.max(*level);
    }
    depth
}
