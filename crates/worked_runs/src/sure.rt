//! A synthesis over files and a sink that never fail.
use file_core::sure_files::SureFiles;
use file_core::sure_sink::SureSink;
use jobs::run::run_surely;
use memory_runs::half_adder::{HALF_ADDER, SYNTHESIS};
use memory_runs::held::{holding, words};
use std::test::Fail;

#[test]
fn no_fault_over_files_that_never_fail(rt: HostRuntime) -> Result<(), Fail> {
    let alloc = rt.alloc();
    let mut files = SureFiles::new(holding(alloc, HALF_ADDER)?);
    let mut sink = SureSink::new();
    let done = run_surely(alloc, &words(alloc, SYNTHESIS)?, &mut files, &mut sink);
    assert_eq!(rt; done.status.exit(), 0);
    Ok(())
}
