//! The log that no error exceeds a level, by cases: two steps for each input vector.
ghost use Rattle.std.specs.Prelude.{◌≤◌, IfOk};
ghost use Rattle.semantics.specs.Net.{input_count};
ghost use Rattle.semantics.specs.Error.{IsWithin};
ghost use Rattle.proof_semantics.specs.Queries.{IsNever};

use crate::comparable::see_comparable;
use case_tree::refute::refute;
use miter::level::joint_miter;
use net_errors::compared::Compared;
use proof_parts::log::Log;
use proof_semantics::constraint::Constraint;
use semantics::limits::MOST_CASE_INPUTS;
use std::alloc::{AllocError, Global};

/// The log by cases that no error exceeds the bound, where this is known.
pub fn refute_by_cases(alloc: Global, nets: &Compared, aim: Constraint) -> Result<Log, AllocError>
    requires few_inputs { input_count nets.now.exact ≤ MOST_CASE_INPUTS }
    requires within { IsWithin aim.metric nets.now.exact aim.bound nets.now.approx }
    ensures { IfOk result (IsNever aim.metric nets.now.exact nets.now.approx aim.bound) }
{
    see_comparable(nets);
    let miter = joint_miter(alloc, nets, aim.metric, aim.bound)?;
    refute(alloc, &miter.net, &miter.formula)
}
