//! The log that no error exceeds a level, where this is known. With at most eight inputs the log goes by
//! cases. With more inputs the solver is asked. Where the conflicts are enough for the inputs, the solver
//! gets few of them, and if these do not do, the log goes by cases after all: two steps for each vector, with
//! many hints each, so that with more inputs more conflicts are worth a try.
ghost use Rattle.std.specs.Prelude.{◌↔◌, ◌≤◌, ◌<◌, IfOk, IsTrue};
ghost use Rattle.semantics.specs.Net.{input_count};
ghost use Rattle.semantics.specs.Error.{IsWithin};
ghost use Rattle.proof_semantics.specs.Conflicts.{IsEnough};
ghost use Rattle.proof_semantics.specs.Queries.{IsNever};
ghost use Rattle.level_answers.specs.Exceeds.{IsAnswer};

use crate::options::FEW_CONFLICTS;
use crate::repeated_query::ask_repeatedly;
use crate::solver_query::ask_solver;
use every_vector::by_cases::refute_by_cases;
use level_answers::query::Exceed;
use net_errors::compared::Compared;
use progress::progress::Progress;
use proof_parts::log::Log;
use proof_semantics::constraint::Constraint;
use semantics::limits::{FEW_INPUTS, MOST_CASE_INPUTS};
use std::alloc::{AllocError, Global};

/// The most conflicts of the solver where the log can go by cases instead.
fn few_conflicts(inputs: u32) -> u64
    requires { inputs ≤ MOST_CASE_INPUTS }
    ensures { 1 ≤ result }
{
    FEW_CONFLICTS + 2u64.pow(inputs) / 2
}

/// Whether `limit` conflicts are enough for `inputs` inputs.
fn is_enough(limit: u64, inputs: u32) -> bool
    ensures { IsTrue result ↔ IsEnough limit inputs }
{
    inputs <= FEW_INPUTS || inputs <= MOST_CASE_INPUTS && 2u64.pow(inputs + 1) <= limit
}

/// The log of the solver, where a query of few conflicts finds one, and else the log by cases.
fn refute_by_few_conflicts<P: Progress>(
    alloc: Global,
    nets: &Compared,
    aim: Constraint,
    progress: &mut P,
) -> Result<Log, AllocError>
    requires many_inputs { FEW_INPUTS < input_count nets.now.exact }
    requires few_inputs { input_count nets.now.exact ≤ MOST_CASE_INPUTS }
    requires limit { 1 ≤ aim.limit }
    requires within { IsWithin aim.metric nets.now.exact aim.bound nets.now.approx }
    ensures { IfOk result (IsNever aim.metric nets.now.exact nets.now.approx aim.bound) }
{
    match ask_solver(alloc, nets, aim, progress)? {
        Exceed::Never(log) => Ok(log),
        _ => refute_by_cases(alloc, nets, aim),
    }
}

/// A log that refutes that some error exceeds the bound, or the spent query, with as many conflicts as the
/// limit.
pub(crate) fn refute_level<P: Progress>(
    alloc: Global,
    nets: &Compared,
    aim: Constraint,
    progress: &mut P,
) -> Result<Exceed, AllocError>
    requires limit { 1 ≤ aim.limit }
    requires within { IsWithin aim.metric nets.now.exact aim.bound nets.now.approx }
    ensures { IfOk result (IsAnswer aim nets.now.exact nets.now.approx) }
{
    let inputs = nets.exact().inputs();
    if inputs > FEW_INPUTS && !is_enough(aim.limit, inputs) {
        return ask_repeatedly(alloc, nets, aim, progress);
    }
    let log = if inputs > FEW_INPUTS {
        let limit = aim.limit.min(few_conflicts(inputs));
        refute_by_few_conflicts(alloc, nets, Constraint { limit, ..aim }, progress)?
    } else {
        refute_by_cases(alloc, nets, aim)?
    };
    Ok(Exceed::Never(log))
}
