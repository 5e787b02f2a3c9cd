//! The jobs by their words, and what the answer to each job says.
ghost use Rattle.std.specs.Prelude.{◌≡◌, List, Some};
ghost use Rattle.semantics.specs.Net.{NetValue};
ghost use Rattle.semantics.specs.Texts.{Bytes};
ghost use Rattle.outside_semantics.specs.Outside.{SinkTold};
ghost use Rattle.job_semantics.specs.Job.{job_of};
ghost use Rattle.command_words.specs.Words.{job_meaning, HasRanges};
ghost use Rattle.job_answers.specs.OnFiles.{on_files};
ghost use Rattle.synth_jobs.specs.Calls.{told_call};
ghost use Rattle.job_runs.specs.Outcome.{without_query};
ghost use Rattle.job_runs.specs.Run.{IsOnFiles, JobAnswer, RunSays};

use crate::demonstration::demonstrate;
use crate::outcome::{Outcome, Status, only};
use crate::second::against;
use crate::synthesis::synthesize;
use check_jobs::checking::check;
use check_jobs::trimming::trim_bundle;
use command_words::words::{Command, command_named};
use conversions::conversion::{aag, blif, flat};
use file_core::files::Files;
use file_core::sink::Sink;
use file_core::word::Word;
use net_search::search::Search;
use progress::progress::Progress;
use std::alloc::Global;
use synth_jobs::demonstration::demo_aim;

/// Carries out a job that uses files alone: a check, a confirmation, a conversion, or the trimming of a log.
fn on_files<F: Files>(alloc: Global, command: Command, files: &mut F) -> Status
    requires on_files { IsOnFiles (job_meaning command) }
    requires ranges { HasRanges command }
    requires named { (words : List Bytes) × (job_of words ≡ Some (job_meaning command)) }
    ensures { (said : SinkTold) → JobAnswer
        (job_meaning command.entry)
        (on_files (F.told files.old) (F.told files.new) said)
        (without_query result) }
{
    match command {
        Command::Check { claim, input, stem } => check(alloc, claim, input, stem, files),
        Command::Flat { input, output } => flat(alloc, input, output, files),
        Command::Aag { input, output } => aag(alloc, input, output, files),
        Command::Blif { input, output } => blif(alloc, input, output, files),
        Command::Trim {
            claim,
            input,
            stem,
            output,
        } => trim_bundle(alloc, claim, input, stem, output, files),
        Command::Synth(_) => unreachable!(),
        Command::Against(_) => unreachable!(),
        Command::Demo { .. } => unreachable!(),
    }
}

/// Carries out the job that the words name, and tells `progress` how far a search is.
pub fn carry_out<S: Search, F: Files, K: Sink, P: Progress>(
    alloc: Global,
    words: &[Word],
    files: &mut F,
    say: &mut K,
    progress: &mut P,
) -> Outcome
    requires takes { (net : NetValue) → S.takes net }
    ensures says { RunSays
        words.now
        (told_call (F.told files.old) (F.told files.new) (K.told say.old) (K.told say.new))
        result }
    ensures usage_touches_nothing { result.status ≡ Status.Usage
        → (files.new ≡ files.old) × (say.new ≡ say.old) }
{
    let Some(command) = command_named(words) else {
        return only(Status::Usage);
    };
    match command {
        Command::Synth(job) => synthesize::<S, F, K, P>(alloc, job, files, say, progress),
        Command::Against(job) => against::<S, F, K, P>(alloc, job, files, say, progress),
        Command::Demo {
            width,
            bound,
            conflicts,
        } => {
            let aim = demo_aim(bound, conflicts);
            demonstrate::<S, F, K, P>(alloc, width, aim, files, say, progress)
        }
        _ => only(on_files(alloc, command, files)),
    }
}
