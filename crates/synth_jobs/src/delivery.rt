//! A net is certified or simplified, its bundle is written, and its report is put to the sink: what the jobs
//! that write a bundle have in common.
ghost use Rattle.std.specs.Prelude.{◌≤◌, OnOk, OnErr};
ghost use Rattle.semantics.specs.Net.{IsSmall};
ghost use Rattle.chain_semantics.specs.Simplification.{IsBeginning};
ghost use Rattle.job_semantics.specs.Synthesis as synthesis;
ghost use Rattle.synth_jobs.specs.Calls.{told_call};
ghost use Rattle.synth_jobs.specs.Prepared.{IsReady};
ghost use Rattle.synth_jobs.specs.Delivered.{IsDelivered, IsDeliveredInPart};
ghost use Rattle.synth_jobs.specs.Requests.{told_request};
ghost use Rattle.synth_jobs.specs.Work.{WorkSays};

use crate::preparing::{Prepared, prepare};
use crate::request::Request;
use crate::work::Work;
use bundle_writing::bundle::Bundle;
use bundle_writing::stem::Stem;
use bundle_writing::writing::{put_report, write_bundle};
use file_core::fault::FileFault;
use file_core::files::Files;
use file_core::sink::Sink;
use level_answers::query::Spent;
use net_search::search::Search;
use progress::progress::Progress;
use semantics::limits::LARGEST_ERROR;
use std::alloc::Global;

/// Writes the files of a bundle, and then puts its report to the sink.
fn deliver<F: Files, K: Sink>(
    bundle: &Bundle,
    names: &Stem,
    files: &mut F,
    say: &mut K,
) -> Result<(), FileFault>
    ensures ok { OnOk result (IsDelivered
        bundle.now
        names.now
        (told_call (F.told files.old) (F.told files.new) (K.told say.old) (K.told say.new))) }
    ensures err { OnErr result (IsDeliveredInPart
        bundle.now
        names.now
        (told_call (F.told files.old) (F.told files.new) (K.told say.old) (K.told say.new))) }
{
    let Ok(()) = write_bundle(bundle, names, files) else {
        return Err(FileFault);
    };
    put_report(bundle, say)
}

/// What the work comes to once its bundle is ready and the files and the report are delivered, or
/// could not be.
fn delivered<F: Files, K: Sink>(
    bundle: &Bundle,
    spent: Option<Spent>,
    names: &Stem,
    files: &mut F,
    say: &mut K,
) -> Work
    ensures { (r : synthesis.Request) → IsReady r bundle.now spent → WorkSays
        r
        names.now
        (told_call (F.told files.old) (F.told files.new) (K.told say.old) (K.told say.new))
        result }
{
    match deliver(bundle, names, files, say) {
        Ok(()) => Work::Done(spent),
        Err(FileFault) => Work::WriteFault,
    }
}

/// Does the task, writes the bundle of what it makes of the second net under the stem's names, and puts the
/// report. Everything is computed before a file is touched.
pub fn finish<S: Search, F: Files, K: Sink, P: Progress>(
    alloc: Global,
    request: Request,
    names: &Stem,
    files: &mut F,
    say: &mut K,
    progress: &mut P,
) -> Work
    requires small { IsSmall request.exact }
    requires takes { S.takes request.exact }
    requires begin_small { IsSmall request.begin }
    requires beginning { IsBeginning request.aim.metric request.exact request.aim.bound request.begin }
    requires bound { request.aim.bound ≤ LARGEST_ERROR }
    requires limit { 1 ≤ request.aim.limit }
    ensures { WorkSays
        (told_request request)
        names.now
        (told_call (F.told files.old) (F.told files.new) (K.told say.old) (K.told say.new))
        result }
{
    match prepare::<S, P>(alloc, request, progress) {
        Err(_) => Work::NoMemory,
        Ok(Prepared::Budget { level, spent }) => Work::Budget { level, spent },
        Ok(Prepared::Ready { bundle, spent }) => { delivered(&bundle, spent, names, files, say) }
    }
}
