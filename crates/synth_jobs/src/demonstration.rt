//! A demo job: an adder is generated and simplified, and its bundle is written under the stem `demo`.
ghost use Rattle.std.specs.Prelude.{◌≡◌, ◌≤◌};
ghost use Rattle.job_semantics.specs.Demo.{demo_net};
ghost use Rattle.job_semantics.specs.Demonstration.{demo_stem};
ghost use Rattle.job_semantics.specs.Synthesis.{simplifying};
ghost use Rattle.synth_jobs.specs.Calls.{told_call};
ghost use Rattle.synth_jobs.specs.Demo.{demo_aim};
ghost use Rattle.synth_jobs.specs.Work.{WorkSays};

use crate::delivery::finish;
use crate::request::Request;
use crate::work::Work;
use bundle_writing::stem::Stem;
use demo_adder::adder::demo_net;
use file_core::files::Files;
use file_core::sink::Sink;
use job_semantics::task::Task;
use net_search::search::Search;
use progress::progress::Progress;
use proof_semantics::constraint::Constraint;
use semantics::limits::LARGEST_ERROR;
use semantics::metric::{Kind, Metric};
use std::alloc::Global;

/// What a demo job asks for: the absolute error, within a bound, and a limit of conflicts for each query.
pub fn demo_aim(bound: u128, conflicts: u64) -> Constraint
    ensures { result ≡ demo_aim bound conflicts }
{
    Constraint {
        metric: Metric {
            kind: Kind::Abs,
            width: None,
        },
        bound,
        limit: conflicts,
    }
}

/// Simplifies the adder of two words of `width` bits.
pub fn demonstrate<S: Search, F: Files, K: Sink, P: Progress>(
    alloc: Global,
    width: u32,
    aim: Constraint,
    files: &mut F,
    say: &mut K,
    progress: &mut P,
) -> Work
    requires width { (1 ≤ width) × (width ≤ 32) }
    requires takes { S.takes (demo_net width) }
    requires bound { aim.bound ≤ LARGEST_ERROR }
    requires limit { 1 ≤ aim.limit }
    ensures { WorkSays
        (simplifying aim (demo_net width))
        demo_stem
        (told_call (F.told files.old) (F.told files.new) (K.told say.old) (K.told say.new))
        result }
{
    let Ok(exact) = demo_net(alloc, width) else {
        return Work::NoMemory;
    };
    let Ok(begin) = exact.copy() else {
        return Work::NoMemory;
    };
    let Ok(names) = Stem::new(alloc, b"demo") else {
        return Work::NoMemory;
    };
    exact.see_sound();
    let request = Request {
        task: Task::Refine,
        aim,
        exact,
        begin,
    };
    finish::<S, F, K, P>(alloc, request, &names, files, say, progress)
}
