//! Whether some error exceeds a level. With at most sixteen inputs every vector is tried, and the log is made
//! where no vector's error exceeds the level; with more inputs the solver is asked.
ghost use Rattle.std.specs.Prelude.{◌≤◌, IfOk};
ghost use Rattle.level_answers.specs.Exceeds.{IsAnswer};
ghost use Rattle.every_vector.specs.Vectors.{IsEveryVectorHeld};

use crate::options::LANE_INPUTS;
use crate::refutation::refute_level;
use crate::repeated_query::ask_repeatedly;
use every_vector::vectors::{hold_every_vector, try_vectors};
use lane_nets::reference::Reference;
use level_answers::query::Exceed;
use net_errors::compared::Compared;
use progress::progress::Progress;
use proof_semantics::constraint::Constraint;
use std::alloc::{AllocError, Global};

/// Whether some error exceeds the bound, as [`exceeds`] answers, where every vector is held.
#[tactic(auto, using(every_vector::proofs::Tried::over_first))]
fn exceeds_held<P: Progress>(
    alloc: Global,
    nets: &Compared,
    held: &Reference,
    aim: Constraint,
    progress: &mut P,
) -> Result<Exceed, AllocError>
    requires held { IsEveryVectorHeld nets.now.exact held.now }
    requires limit { 1 ≤ aim.limit }
    ensures { IfOk result (IsAnswer aim nets.now.exact nets.now.approx) }
{
    match try_vectors(alloc, nets, held, aim)? {
        Some(x) => Ok(Exceed::Over(x)),
        None => refute_level(alloc, nets, aim, progress),
    }
}

/// An input whose error exceeds the bound, a log that refutes that there is one, or the spent query, with as
/// many conflicts as the limit. Tells `progress` what the solver does.
pub fn exceeds<P: Progress>(
    alloc: Global,
    nets: &Compared,
    aim: Constraint,
    progress: &mut P,
) -> Result<Exceed, AllocError>
    requires limit { 1 ≤ aim.limit }
    ensures { IfOk result (IsAnswer aim nets.now.exact nets.now.approx) }
{
    match hold_every_vector(alloc, nets.exact(), LANE_INPUTS)? {
        Some(held) => exceeds_held(alloc, nets, &held, aim, progress),
        None => ask_repeatedly(alloc, nets, aim, progress),
    }
}
