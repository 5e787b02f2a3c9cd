//! The bundle of a task is written under a stem.
ghost use Rattle.std.specs.Prelude.{◌≤◌};
ghost use Rattle.semantics.specs.Net.{IsSmall};
ghost use Rattle.chain_semantics.specs.Simplification.{IsBeginning};
ghost use Rattle.synth_jobs.specs.Calls.{told_call};
ghost use Rattle.synth_jobs.specs.Requests.{told_request};
ghost use Rattle.job_runs.specs.Run.{BundleAnswer};

use crate::outcome::{Outcome, Status, only, outcome_of};
use bundle_writing::stem::Stem;
use file_core::files::Files;
use file_core::sink::Sink;
use net_search::search::Search;
use progress::progress::Progress;
use semantics::limits::LARGEST_ERROR;
use std::alloc::Global;
use synth_jobs::delivery::finish;
use synth_jobs::request::Request;

/// Does what is requested: writes its bundle under the stem, and puts its report.
pub(crate) fn deliver<S: Search, F: Files, K: Sink, P: Progress>(
    alloc: Global,
    request: Request,
    stem: &[u8],
    files: &mut F,
    say: &mut K,
    progress: &mut P,
) -> Outcome
    requires exact { IsSmall request.exact }
    requires takes { S.takes request.exact }
    requires begin { IsSmall request.begin }
    requires beginning { IsBeginning request.aim.metric request.exact request.aim.bound request.begin }
    requires bound { request.aim.bound ≤ LARGEST_ERROR }
    requires limit { 1 ≤ request.aim.limit }
    ensures { BundleAnswer
        (told_request request)
        stem.now
        (told_call (F.told files.old) (F.told files.new) (K.told say.old) (K.told say.new))
        result }
{
    let Ok(names) = Stem::new(alloc, stem) else {
        return only(Status::NoMemory);
    };
    outcome_of(finish::<S, F, K, P>(alloc, request, &names, files, say, progress))
}
