//! A trim job: IN is read, and then the bundle is checked against it as by a check job. Where its certificate
//! stands, its log is trimmed and written.
ghost use Rattle.std.specs.Prelude.{[], ◌∷◌, IsTrue};
ghost use Rattle.outside_semantics.specs.Outside.{SinkTold};
ghost use Rattle.proof_semantics.specs.Logs.{Refutes};
ghost use Rattle.proof_semantics.specs.Lrat.{lrat_text};
ghost use Rattle.job_semantics.specs.Job.{are_trim_words};
ghost use Rattle.job_semantics.specs.Conversion.{output_file};
ghost use Rattle.file_core.specs.Page.{WritesFiles};
ghost use Rattle.job_answers.specs.OnFiles.{on_files};
ghost use Rattle.check_jobs.specs.Answers.{TrimAnswer};
ghost use Rattle.check_jobs.specs.Trimmed.{TrimmedAnswer};

use bundle::load::load_bundle;
use bundle::loaded::Loaded;
use bundle_writing::stem::Stem;
use cnf_core::cnf::Cnf;
use cnf_core::log::Log;
use cnf_core::lrat::write_lrat;
use conversions::input::read_net;
use conversions::output::answer_of_writing;
use file_core::fault::FileFault;
use file_core::files::Files;
use job_answers::status::Status;
use job_answers::unread::answer_of_unread;
use job_semantics::claim::Claim;
use lrat_trim::trim::trim;
use std::alloc::Global;

/// Makes the file with the text of a log. The call takes no memory.
fn write_log<F: Files>(log: &Log, output: &[u8], files: &mut F) -> Result<(), FileFault>
    ensures { WritesFiles result (F.told files.old) (F.told files.new)
        (output_file output.now (lrat_text log.now) ∷ []) }
{
    files.create(output)?;
    write_lrat(log, files)
}

/// The answer where the log refutes the goal: it is trimmed, and then OUT is written.
fn write_trimmed<F: Files>(
    alloc: Global,
    goal: &Cnf,
    log: &Log,
    output: &[u8],
    files: &mut F,
) -> Status
    requires { Refutes goal.now.clauses log.now }
    ensures { TrimmedAnswer goal.now.clauses log.now output.now (F.told files.old) (F.told files.new) result }
{
    let Ok(short) = trim(alloc, goal, log) else {
        return Status::NoMemory;
    };
    answer_of_writing(write_log(&short, output, files))
}

/// Carries out a trim job. Where the claim refuses growth, a net that is larger than that of IN is refused,
/// as by a check job.
pub fn trim_bundle<F: Files>(
    alloc: Global,
    claim: Claim,
    input: &[u8],
    stem: &[u8],
    output: &[u8],
    files: &mut F,
) -> Status
    requires { IsTrue (are_trim_words input.now stem.now output.now) }
    ensures { (said : SinkTold) → TrimAnswer
        claim
        input.now
        stem.now
        output.now
        (on_files (F.told files.old) (F.told files.new) said)
        result }
{
    let exact = match read_net(alloc, files, input) {
        Ok(net) => net,
        Err(answer) => return answer,
    };
    let Ok(names) = Stem::new(alloc, stem) else {
        return Status::NoMemory;
    };
    match load_bundle(alloc, &exact, claim, &names, files) {
        Ok(Loaded::Good { goal, log }) => write_trimmed(alloc, &goal, &log, output, files),
        Ok(Loaded::Refuted(number)) => Status::Refuted(number),
        Err(reason) => answer_of_unread(reason),
    }
}
