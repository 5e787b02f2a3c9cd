//! Trimmed logs over the clauses 1, -1 2 and -2.
ghost use Rattle.std.specs.Prelude.{◌^◌, ◌<◌, length, IfSome, IfOk};
ghost use Rattle.proof_semantics.specs.Logs.{Refutes};

use crate::logs::three_clauses;
use bundle_texts::log_check::LogCheck;
use cnf_core::cnf::Cnf;
use cnf_core::log::Log;
use cnf_core::lrat::write_lrat;
use file_core::files::Files;
use file_core::lists::{CallList, FileList};
use file_core::memory_files::MemFiles;
use file_reading::intake::Intake;
use lrat_trim::trim::trim;
use std::alloc::{AllocError, Global};
use std::test::Fail;

/// The log of a text, if it refutes the formula.
fn refuting_log(alloc: Global, goal: &Cnf, text: &[u8]) -> Result<Option<Log>, AllocError>
    requires { length text.now < 2 ^ 62 }
    ensures { IfOk result (λ log. IfSome log (Refutes goal.now.clauses)) }
{
    let mut check: LogCheck<Log> = LogCheck::new(alloc, goal)?;
    check.take(text)?;
    check.finish()
}

/// Whether the log of the text is trimmed to the log of the other, each with a line for an item.
fn is_trimmed_to(alloc: Global, text: &[u8], wanted: &[u8]) -> Result<bool, Fail>
    requires { length text.now < 2 ^ 62 }
{
    let goal = three_clauses(alloc)?;
    let Some(log) = refuting_log(alloc, &goal, text)? else {
        return Ok(false);
    };
    let mut files = MemFiles::new(FileList::new(alloc), CallList::new(alloc), 64);
    files.create(b"short")?;
    write_lrat(&trim(alloc, &goal, &log)?, &mut files)?;
    Ok(files.bytes(b"short") == Some(wanted))
}

#[test]
fn logs_that_are_trimmed(rt: HostRuntime) -> Result<(), Fail> {
    let alloc = rt.alloc();
    let idle: &[u8] = b"4 2 0 1 2 0\n5 -1 0 2 3 0\n6 0 4 3 0\n";
    let copied: &[u8] = b"4 2 0 1 2 0\n5 2 0 4 0\n6 0 5 3 0\n";
    let short: &[u8] = b"4 0 1 2 3 0\n";
    assert!(rt; idle.len() < 100 && copied.len() < 100 && short.len() < 100);
    assert!(rt; is_trimmed_to(alloc, idle, b"4 2 0 1 2 0\n6 0 4 3 0\n")?);
    assert!(rt;
        is_trimmed_to(
            alloc,
            copied,
            b"4 2 0 1 2 0\n5 2 0 4 0\n5 d 4 0\n6 0 5 3 0\n"
        )?
    );
    assert!(rt; is_trimmed_to(alloc, short, short)?);
    Ok(())
}
