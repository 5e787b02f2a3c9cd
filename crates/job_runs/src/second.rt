//! A certify or a refine job: IN and a second netlist are read, the second is judged against IN, and the
//! bundle of the task is written.
ghost use Rattle.std.specs.Prelude.{◌≤◌, IfOk, IfErr};
ghost use Rattle.semantics.specs.Net.{NetValue, IsSmall};
ghost use Rattle.command_words.specs.Names.{names_of};
ghost use Rattle.conversions.specs.Input.{NetRead};
ghost use Rattle.synth_jobs.specs.Calls.{told_call};
ghost use Rattle.synth_jobs.specs.Requests.{told_request};
ghost use Rattle.job_runs.specs.Run.{TaskAnswer};
ghost use Rattle.job_runs.specs.Second.{SecondUnread, JudgedAnswer};

use crate::delivery::deliver;
use crate::outcome::{Outcome, Status, only};
use command_words::net_jobs::TaskJob;
use conversions::input::read_net;
use file_core::files::Files;
use file_core::sink::Sink;
use net_core::net::Net;
use net_search::search::Search;
use progress::progress::Progress;
use semantics::limits::LARGEST_ERROR;
use std::alloc::Global;
use synth_jobs::beginning::{Beginning, judge_beginning};
use synth_jobs::request::Request;

/// Reads the second netlist as IN is read, and tells its refusal as that of the second.
fn read_second<F: Files>(alloc: Global, files: &mut F, name: &[u8]) -> Result<Net, Status>
    ensures ok { IfOk result (NetRead (F.told files.old) (F.told files.new) name.now) }
    ensures err { IfErr result (SecondUnread (F.told files.old) (F.told files.new) name.now) }
{
    match read_net(alloc, files, name) {
        Ok(net) => Ok(net),
        Err(Status::Text(reason)) => Err(Status::Second(reason)),
        Err(answer) => Err(answer),
    }
}

/// Judges the second net against the exact one and, where it keeps the bound, does what is requested.
fn undertake<S: Search, F: Files, K: Sink, P: Progress>(
    alloc: Global,
    request: Request,
    stem: &[u8],
    files: &mut F,
    say: &mut K,
    progress: &mut P,
) -> Outcome
    requires exact { IsSmall request.exact }
    requires takes { S.takes request.exact }
    requires begin { IsSmall request.begin }
    requires bound { request.aim.bound ≤ LARGEST_ERROR }
    requires limit { 1 ≤ request.aim.limit }
    ensures { JudgedAnswer
        (told_request request)
        stem.now
        (told_call (F.told files.old) (F.told files.new) (K.told say.old) (K.told say.new))
        result }
{
    let Request {
        aim,
        exact,
        begin,
        ..
    } = &request;
    match judge_beginning::<S, P>(alloc, *aim, exact, begin, progress) {
        Err(_) => only(Status::NoMemory),
        Ok(Beginning::Ports) => only(Status::Ports),
        Ok(Beginning::Over(x)) => only(Status::Over(x)),
        Ok(Beginning::Spent(level)) => Outcome {
            status: Status::Budget,
            spent: None,
            level: Some(level),
        },
        Ok(Beginning::Within) => {
            deliver::<S, F, K, P>(alloc, request, stem, files, say, progress)
        }
    }
}

/// Carries out a certify or a refine job.
pub(crate) fn against<S: Search, F: Files, K: Sink, P: Progress>(
    alloc: Global,
    job: TaskJob<'_>,
    files: &mut F,
    say: &mut K,
    progress: &mut P,
) -> Outcome
    requires takes { (net : NetValue) → S.takes net }
    requires bound { job.aim.bound ≤ LARGEST_ERROR }
    requires limit { 1 ≤ job.aim.limit }
    ensures { TaskAnswer
        job.entry.task
        job.entry.aim
        (names_of job.entry.names)
        (told_call (F.told files.old) (F.told files.new) (K.told say.old) (K.told say.new))
        result }
{
    let exact = match read_net(alloc, files, job.names.input) {
        Ok(net) => net,
        Err(answer) => return only(answer),
    };
    let begin = match read_second(alloc, files, job.names.second) {
        Ok(net) => net,
        Err(answer) => return only(answer),
    };
    let request = Request {
        task: job.task,
        aim: job.aim,
        exact,
        begin,
    };
    undertake::<S, F, K, P>(alloc, request, job.names.stem, files, say, progress)
}
