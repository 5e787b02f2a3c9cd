//! Each call on the sink of a job that puts a report fails in turn.
ghost use Rattle.std.specs.Prelude.{◌<◌};

use crate::writing::{DEMONSTRATION, OF_THE_HALF_ADDER, Writing};
use memory_runs::bundles::are_whole;
use memory_runs::half_adder::HALF_ADDER;
use memory_runs::held::{bytes_of, holding};
use memory_runs::runs::{Run, run_failing, run_on};
use std::alloc::{AllocError, Global};
use std::test::Fail;

/// More calls than a report of single bytes needs.
const MOST_CALLS: u64 = 1000;

/// The job's run, whose sink works in chunks of `chunk` bytes; only the sink's call with the number `call`
/// fails.
fn failing_at(alloc: Global, job: &Writing, chunk: usize, call: u64) -> Result<Run, AllocError>
    requires { 0 < chunk }
{
    let held = holding(alloc, HALF_ADDER)?;
    run_failing(alloc, job.line, held, chunk, 0, call)
}

/// Whether a write fault is answered, and a first part of the report was put, but not all.
fn is_left_by_the_sink(ended: &Run, report: &[u8]) -> bool {
    ended.status.exit() == 6
        && report.starts_with(ended.sink.bytes())
        && ended.sink.bytes() != report
}

/// Whether a run that is done follows the runs in each of which one call on the sink, in chunks of `chunk`
/// bytes, fails alone. Each of these leaves the whole bundle, and the report is the bundle's last file.
fn sink_fails_in_turn(alloc: Global, job: &Writing, chunk: usize) -> Result<bool, AllocError>
    requires { 0 < chunk }
{
    let whole = run_on(alloc, job.line, HALF_ADDER)?.files;
    let report = bytes_of(&whole, job.names[4]);
    for call in 1..MOST_CALLS {
        let ended = failing_at(alloc, job, chunk, call)?;
        if !are_whole(&ended.files, &job.names, &whole) {
            return Ok(false);
        }
        if !is_left_by_the_sink(&ended, report) {
            return Ok(ended.status.exit() == 0 && ended.sink.bytes() == report && call > 1);
        }
    }
    Ok(false)
}

#[test]
fn each_call_on_the_sink_of_a_synthesis_fails_in_turn(rt: HostRuntime) -> Result<(), Fail> {
    assert!(rt; sink_fails_in_turn(rt.alloc(), &OF_THE_HALF_ADDER, 1)?);
    assert!(rt; sink_fails_in_turn(rt.alloc(), &OF_THE_HALF_ADDER, 7)?);
    assert!(rt; sink_fails_in_turn(rt.alloc(), &OF_THE_HALF_ADDER, 64)?);
    Ok(())
}

#[test]
fn each_call_on_the_sink_of_a_demonstration_fails_in_turn(rt: HostRuntime) -> Result<(), Fail> {
    assert!(rt; sink_fails_in_turn(rt.alloc(), &DEMONSTRATION, 1)?);
    assert!(rt; sink_fails_in_turn(rt.alloc(), &DEMONSTRATION, 7)?);
    assert!(rt; sink_fails_in_turn(rt.alloc(), &DEMONSTRATION, 64)?);
    Ok(())
}
