//! The top calls: what a program does with its words, its files and its standard output, by any search.
ghost use Rattle.std.specs.Prelude.{◌≡◌, ◌≢◌, ℕ, true, IsTrue, Some};
ghost use Rattle.std.specs.FinMap.{contains_key};
ghost use Rattle.outside_semantics.specs.Outside.{bytes_of};
ghost use Rattle.blif_semantics.specs.Reading.{blif_reading};
ghost use Rattle.semantics.specs.declared.limits.TheConstants.{MOST_INPUT_BYTES};
ghost use Rattle.semantics.specs.Texts.{Bytes};
ghost use Rattle.semantics.specs.Net.{NetValue, input_count};
ghost use Rattle.semantics.specs.declared.metric.Metric.{Metric};
ghost use Rattle.proof_semantics.specs.declared.constraint.Constraint.{Constraint};
ghost use Rattle.job_semantics.specs.Headline.{Headline};
ghost use Rattle.job_semantics.specs.SecondHeadline.{SecondHeadline};
ghost use Rattle.job_semantics.specs.Job.{Job, synth, check, demo, job_of};
ghost use Rattle.job_semantics.specs.Demo.{demo_net};
ghost use Rattle.file_core.specs.Sure.{sure_told, sure_sink_told};
ghost use Rattle.synth_jobs.specs.Spent.{told_query};
ghost use Rattle.check_jobs.specs.Answers.{IsCheckAnswerTo};
ghost use Rattle.synth_jobs.specs.Calls.{told_call};
ghost use Rattle.job_runs.specs.Outcome.{answered_by};
ghost use Rattle.job_runs.specs.Run.{RunSays, IsQuietJob, EndsAsAsked, IsAnswerTo, IsWorkOf};

use crate::commands::carry_out;
use crate::outcome::{Outcome, Status};
use file_core::files::Files;
use file_core::sink::Sink;
use file_core::sure_files::SureFiles;
use file_core::sure_sink::SureSink;
use file_core::word::Word;
use net_search::search::Search;
use progress::progress::{Progress, Silent};
use std::alloc::Global;

/// Carries out the job that the words name, and tells `progress` how far a search is. What is answered and
/// written does not depend on `progress`.
pub fn run_followed<S: Search, F: Files, K: Sink, P: Progress>(
    alloc: Global,
    words: &[Word],
    files: &mut F,
    say: &mut K,
    progress: &mut P,
) -> Outcome
    requires takes { (net : NetValue) → S.takes net }

    // When `check` verifies a bundle it keeps its promise; unless conflicts were spent, an accepted netlist
    // gets a bundle that verifies.
    ensures headline { Headline
        words.now
        (answered_by result)
        (told_call (F.told files.old) (F.told files.new) (K.told say.old) (K.told say.new)) }

    // When `confirm` verifies a bundle it keeps the bound; unless conflicts were spent, a second netlist
    // within the bound gets a bundle that is confirmed.
    ensures second_headline { SecondHeadline
        words.now
        (answered_by result)
        (told_call (F.told files.old) (F.told files.new) (K.told say.old) (K.told say.new)) }

    // What each answer says.
    ensures says { RunSays
        words.now
        (told_call (F.told files.old) (F.told files.new) (K.told say.old) (K.told say.new))
        result }
    ensures usage_touches_nothing { result.status ≡ Status.Usage
        → (files.new ≡ files.old) × (say.new ≡ say.old) }

    // A quiet call has no fault, and ends as the readings and the conflicts ask, unless memory is wanting.
    ensures complete { (job : Job) → job_of words.now ≡ Some job
        → IsQuietJob job (told_call (F.told files.old) (F.told files.new) (K.told say.old) (K.told say.new))
        → EndsAsAsked job (F.told files.old) result }
{
    carry_out::<S, F, K, P>(alloc, words, files, say, progress)
}

/// Carries out the job that the words name over files and a sink that never fail: no fault is answered, and
/// each job ends as its net and its conflicts ask.
pub fn run_surely<S: Search>(
    alloc: Global,
    words: &[Word],
    files: &mut SureFiles,
    say: &mut SureSink,
) -> Outcome
    requires takes { (net : NetValue) → S.takes net }
    ensures headline { Headline
        words.now
        (answered_by result)
        (told_call (sure_told files.old) (sure_told files.new) sure_sink_told sure_sink_told) }
    ensures second_headline { SecondHeadline
        words.now
        (answered_by result)
        (told_call (sure_told files.old) (sure_told files.new) sure_sink_told sure_sink_told) }
    ensures says { RunSays
        words.now
        (told_call (sure_told files.old) (sure_told files.new) sure_sink_told sure_sink_told)
        result }
    ensures usage_touches_nothing { result.status ≡ Status.Usage
        → (files.new ≡ files.old) × (say.new ≡ say.old) }
    ensures read { result.status ≢ Status.ReadFault }
    ensures write { result.status ≢ Status.WriteFault }
    ensures answers { (aim : Constraint) (input stem : Bytes)
        → job_of words.now ≡ Some (synth aim input stem)
        → files.old.told ≡ true → IsTrue (contains_key files.old.given input)
        → IsAnswerTo aim.limit (told_query result.spent)
        (blif_reading (bytes_of files.old.given input) MOST_INPUT_BYTES) result.status }
    ensures check_answers { (metric : Metric) (bound : ℕ) (input stem : Bytes)
        → job_of words.now ≡ Some (check metric bound input stem)
        → files.old.told ≡ true → IsTrue (contains_key files.old.given input)
        → IsCheckAnswerTo (blif_reading (bytes_of files.old.given input) MOST_INPUT_BYTES) result.status }
    ensures demo_answers { (width bound conflicts : ℕ)
        → job_of words.now ≡ Some (demo width bound conflicts)
        → IsWorkOf conflicts (input_count (demo_net width)) (told_query result.spent) result.status }

    // Every job ends as the reading of IN and the conflicts ask, unless memory is wanting.
    ensures complete { (job : Job) → job_of words.now ≡ Some job
        → EndsAsAsked job (sure_told files.old) result }
{
    run_followed::<S, SureFiles, SureSink, Silent>(alloc, words, files, say, &mut Silent)
}
