//! A synth job: IN is read and simplified, and its bundle is written.
ghost use Rattle.std.specs.Prelude.{◌≤◌};
ghost use Rattle.semantics.specs.Net.{NetValue};
ghost use Rattle.synth_jobs.specs.Calls.{told_call};
ghost use Rattle.job_runs.specs.Run.{SynthAnswer};

use crate::delivery::deliver;
use crate::outcome::{Outcome, Status, only};
use command_words::net_jobs::SynthJob;
use conversions::input::read_net;
use file_core::files::Files;
use file_core::sink::Sink;
use job_semantics::task::Task;
use net_search::search::Search;
use progress::progress::Progress;
use semantics::limits::LARGEST_ERROR;
use std::alloc::Global;
use synth_jobs::request::Request;

/// Carries out a synth job.
pub(crate) fn synthesize<S: Search, F: Files, K: Sink, P: Progress>(
    alloc: Global,
    job: SynthJob<'_>,
    files: &mut F,
    say: &mut K,
    progress: &mut P,
) -> Outcome
    requires takes { (net : NetValue) → S.takes net }
    requires bound { job.aim.bound ≤ LARGEST_ERROR }
    requires limit { 1 ≤ job.aim.limit }
    ensures { SynthAnswer
        job.entry.aim
        job.entry.input.now
        job.entry.stem.now
        (told_call (F.told files.old) (F.told files.new) (K.told say.old) (K.told say.new))
        result }
{
    let exact = match read_net(alloc, files, job.input) {
        Ok(net) => net,
        Err(answer) => return only(answer),
    };
    let Ok(begin) = exact.copy() else {
        return only(Status::NoMemory);
    };
    let request = Request {
        task: Task::Refine,
        aim: job.aim,
        exact,
        begin,
    };
    deliver::<S, F, K, P>(alloc, request, job.stem, files, say, progress)
}
