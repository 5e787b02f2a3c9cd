//! A demo job, and what its answer tells.
ghost use Rattle.std.specs.Prelude.{◌≤◌};
ghost use Rattle.job_semantics.specs.Demo.{demo_net};
ghost use Rattle.job_semantics.specs.Demonstration.{demo_stem};
ghost use Rattle.job_semantics.specs.Synthesis.{simplifying};
ghost use Rattle.synth_jobs.specs.Calls.{told_call};
ghost use Rattle.job_runs.specs.Run.{BundleAnswer};

use crate::outcome::{Outcome, outcome_of};
use file_core::files::Files;
use file_core::sink::Sink;
use net_search::search::Search;
use progress::progress::Progress;
use proof_semantics::constraint::Constraint;
use semantics::limits::LARGEST_ERROR;
use std::alloc::Global;
use synth_jobs::demonstration;

/// Simplifies the adder of two words of `width` bits.
pub fn demonstrate<S: Search, F: Files, K: Sink, P: Progress>(
    alloc: Global,
    width: u32,
    aim: Constraint,
    files: &mut F,
    say: &mut K,
    progress: &mut P,
) -> Outcome
    requires width { (1 ≤ width) × (width ≤ 32) }
    requires takes { S.takes (demo_net width) }
    requires bound { aim.bound ≤ LARGEST_ERROR }
    requires limit { 1 ≤ aim.limit }
    ensures { BundleAnswer
        (simplifying aim (demo_net width))
        demo_stem
        (told_call (F.told files.old) (F.told files.new) (K.told say.old) (K.told say.new))
        result }
{
    outcome_of(demonstration::demonstrate::<S, F, K, P>(alloc, width, aim, files, say, progress))
}
