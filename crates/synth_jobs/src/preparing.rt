//! All that is computed of two nets before a file is touched: what the task makes of the second, the search
//! for the greatest error, and the formula.
ghost use Rattle.std.specs.Prelude.{◌≡◌, ◌≤◌, ◌<◌, ◌^◌, IfOk};
ghost use Rattle.semantics.specs.Net.{IsSmall, IsSound};
ghost use Rattle.semantics.specs.Error.{IsCandidate};
ghost use Rattle.chain_semantics.specs.Simplification.{IsBeginning};
ghost use Rattle.proof_semantics.specs.Miter.{miter};
ghost use Rattle.synth_jobs.specs.declared.preparing.Prepared.TheVariants.{Ready};
ghost use Rattle.bundle_writing.specs.Value.{FitsReport};
ghost use Rattle.job_semantics.specs.Synthesis as synthesis;
ghost use Rattle.job_semantics.specs.Synthesis.{IsTaskDone, is_shown_minimal, request_of};
ghost use Rattle.level_answers.specs.Maximum.{IsMaximumAnswer};
ghost use Rattle.synth_jobs.specs.Spent.{told_query};
ghost use Rattle.synth_jobs.specs.Requests.{told_request};
ghost use Rattle.synth_jobs.specs.Prepared.{told_shrinking, bundle_of, IsSearched, IsPrepared};

use crate::request::Request;
use bundle_writing::bundle::{Bundle, Version};
use cnf_core::cnf::Cnf;
use cnf_core::log::Log;
use job_semantics::task::Task;
use lane_bits::patterns::Patterns;
use level_answers::query::{Maximum, Spent};
use miter::level::miter_of;
use net_core::items::Bits;
use net_core::net::Net;
use net_errors::compared::Compared;
use net_search::search::{Search, Shrunk};
use progress::progress::Progress;
use proof_semantics::constraint::Constraint;
use semantics::limits::LARGEST_ERROR;
use semantics::metric::Metric;
use std::alloc::{AllocError, Global};

/// What is ready before the first file is touched.
#[derive(Drop)]
pub enum Prepared {
    /// The bundle, and the spent query of the search along the chain, where one was spent.
    Ready {
        bundle: Bundle,
        spent: Option<Spent>,
    },
    /// The spent query of the search for the greatest error, and the spent query of the search along the
    /// chain, where one was spent.
    Budget {
        level: Spent,
        spent: Option<Spent>,
    },
}

/// What was found: the second net or its simplification, the greatest error of that net, an input that
/// attains this error, and the log that refutes the formula.
#[derive(Drop)]
struct Findings {
    shrunk: Shrunk,
    maximum: u128,
    witness: Bits,
    log: Log,
}

/// Whether the report says that no further move is allowed: where the net was refined and no query was spent.
fn is_minimal(task: Task, spent: &Option<Spent>) -> bool
    ensures { result ≡ is_shown_minimal task (told_query spent.now) }
{
    match task {
        Task::Certify => false,
        Task::Refine => spent.is_none(),
    }
}

/// The bundle of what was found, of version 2.
fn gathered(task: Task, aim: Constraint, exact: Net, found: Findings, goal: Cnf) -> Prepared
    requires { FitsReport exact found.shrunk.net found.witness }
    ensures { result ≡ Ready (bundle_of task aim exact found goal) found.shrunk.spent }
{
    let shrunk = found.shrunk;
    let bundle = Bundle {
        version: Version::Two,
        exact,
        approx: shrunk.net,
        metric: aim.metric,
        bound: aim.bound,
        maximum: found.maximum,
        witness: found.witness,
        pool: shrunk.pool,
        minimal: is_minimal(task, &shrunk.spent),
        goal,
        log: found.log,
    };
    Prepared::Ready {
        bundle,
        spent: shrunk.spent,
    }
}

/// What the task and the search for the greatest error come to.
#[derive(Drop)]
enum Searched {
    /// The greatest error was found.
    Found(Findings),
    /// The spent query of the search for the greatest error, and the spent query of the search along the
    /// chain, where one was spent.
    Budget { level: Spent, spent: Option<Spent> },
}

/// The findings of both, or the spent query of the search for the greatest error.
fn together(shrunk: Shrunk, maximum: Maximum) -> Searched
    ensures { (r : synthesis.Request) → IsTaskDone r.task r.aim r.exact r.begin (told_shrinking shrunk)
        → IsMaximumAnswer r.aim r.exact shrunk.net maximum → IsSearched r result }
{
    match maximum {
        Maximum::Spent(level) => Searched::Budget {
            level,
            spent: shrunk.spent,
        },
        Maximum::Found { max, witness, log } => Searched::Found(Findings {
            shrunk,
            maximum: max,
            witness,
            log,
        }),
    }
}

/// What the task makes of the second net: the net itself without a vector, or the member of its chain that is
/// reached.
fn carried_out<S: Search, P: Progress>(
    alloc: Global,
    task: Task,
    aim: Constraint,
    exact: &Net,
    begin: Net,
    progress: &mut P,
) -> Result<Shrunk, AllocError>
    requires small { IsSmall exact.now }
    requires takes { S.takes exact.now }
    requires begin_small { IsSmall begin }
    requires beginning { IsBeginning aim.metric exact.now aim.bound begin }
    requires limit { 1 ≤ aim.limit }
    ensures { IfOk result (λ s. IsTaskDone task aim exact.now begin (told_shrinking s)) }
{
    match task {
        Task::Certify => Ok(Shrunk {
            net: begin,
            pool: Patterns::new(alloc, exact.inputs()),
            spent: None,
        }),
        Task::Refine => {
            let nets = Compared::new(exact, &begin);
            S::shrink(alloc, &nets, aim, progress)
        }
    }
}

/// What the task makes of the second net, and the greatest error of that.
fn search<S: Search, P: Progress>(
    alloc: Global,
    task: Task,
    aim: Constraint,
    exact: &Net,
    begin: Net,
    progress: &mut P,
) -> Result<Searched, AllocError>
    requires small { IsSmall exact.now }
    requires takes { S.takes exact.now }
    requires begin_small { IsSmall begin }
    requires beginning { IsBeginning aim.metric exact.now aim.bound begin }
    requires limit { 1 ≤ aim.limit }
    ensures { IfOk result (IsSearched (request_of task aim exact.now begin)) }
{
    let shrunk = carried_out::<S, P>(alloc, task, aim, exact, begin, progress)?;
    let nets = Compared::new(exact, &shrunk.net);
    let maximum = S::maximum(alloc, &nets, aim, progress)?;
    Ok(together(shrunk, maximum))
}

/// The formula that the log of what was found refutes.
fn goal_for(alloc: Global, exact: &Net, metric: Metric, found: &Findings) -> Result<Cnf, AllocError>
    requires { IsCandidate exact.now found.now.shrunk.net }
    ensures formula { IfOk result
        (λ goal. goal ≡ miter exact.now found.now.shrunk.net metric found.now.maximum) }
    ensures few_variables { IfOk result (λ goal. goal.variables < 2 ^ 31) }
    ensures exact_sound { IsSound exact.now }
    ensures approx_sound { IsSound found.now.shrunk.net }
{
    exact.see_sound();
    found.shrunk.net.see_sound();
    let nets = Compared::new(exact, &found.shrunk.net);
    miter_of(alloc, &nets, metric, found.maximum)
}

/// The bundle of what the task makes of the second net, or the spent query for which there is none.
pub fn prepare<S: Search, P: Progress>(
    alloc: Global,
    request: Request,
    progress: &mut P,
) -> Result<Prepared, AllocError>
    requires small { IsSmall request.exact }
    requires takes { S.takes request.exact }
    requires begin_small { IsSmall request.begin }
    requires beginning { IsBeginning request.aim.metric request.exact request.aim.bound request.begin }
    requires bound { request.aim.bound ≤ LARGEST_ERROR }
    requires limit { 1 ≤ request.aim.limit }
    ensures { IfOk result (IsPrepared (told_request request)) }
{
    let Request {
        task,
        aim,
        exact,
        begin,
    } = request;
    match search::<S, P>(alloc, task, aim, &exact, begin, progress)? {
        Searched::Budget { level, spent } => Ok(Prepared::Budget { level, spent }),
        Searched::Found(found) => {
            let goal = goal_for(alloc, &exact, aim.metric, &found)?;
            Ok(gathered(task, aim, exact, found, goal))
        }
    }
}
