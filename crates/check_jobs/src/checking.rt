//! A check or a confirm job: IN is read, and then the files of the bundle are checked against it. No file is
//! changed.
ghost use Rattle.std.specs.Prelude.{◌≡◌};
ghost use Rattle.outside_semantics.specs.Outside.{SinkTold};
ghost use Rattle.job_answers.specs.OnFiles.{on_files};
ghost use Rattle.check_jobs.specs.Answers.{status_of_check, CheckAnswer};

use bundle::check::check_bundle;
use bundle::verdict::Verdict;
use bundle_writing::stem::Stem;
use conversions::input::read_net;
use file_core::files::Files;
use file_reading::unread::Unread;
use job_answers::status::Status;
use job_answers::unread::answer_of_unread;
use job_semantics::claim::Claim;
use std::alloc::Global;

/// The answer for what the check of the bundle's files came to.
fn answer_of_check(checked: Result<Verdict, Unread>) -> Status
    ensures { result ≡ status_of_check checked }
{
    match checked {
        Ok(Verdict::Verified) => Status::Verified,
        Ok(Verdict::Refuted(number)) => Status::Refuted(number),
        Err(reason) => answer_of_unread(reason),
    }
}

/// Carries out a check job where the claim refuses growth: the net of the bundle may have no more tables and
/// no more literals than that of IN. Where the claim allows growth, carries out a confirm job: it may have
/// more.
pub fn check<F: Files>(
    alloc: Global,
    claim: Claim,
    input: &[u8],
    stem: &[u8],
    files: &mut F,
) -> Status
    ensures { (said : SinkTold) → CheckAnswer
        claim
        input.now
        stem.now
        (on_files (F.told files.old) (F.told files.new) said)
        result }
{
    let exact = match read_net(alloc, files, input) {
        Ok(net) => net,
        Err(answer) => return answer,
    };
    let Ok(names) = Stem::new(alloc, stem) else {
        return Status::NoMemory;
    };
    answer_of_check(check_bundle(alloc, &exact, claim, &names, files))
}
