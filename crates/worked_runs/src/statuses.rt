//! The exit number and the line of each answer.
use job_answers::status::Status;
use std::alloc::{AllocError, Global};
use std::test::Fail;

fn says(alloc: Global, status: &Status, exit: u8, line: &str) -> Result<bool, AllocError> {
    let said = status.to_string(alloc)?;
    Ok(status.exit() == exit && said.as_str() == line)
}

#[test]
fn exit_numbers_and_lines(rt: HostRuntime) -> Result<(), Fail> {
    let rows = [
        (Status::Done, 0, "done"),
        (Status::Verified, 0, "verified"),
        (Status::Refuted(10), 7, "refuted by clause 10"),
        (Status::Endless, 8, "input without end"),
        (Status::NoMemory, 3, "out of memory"),
        (Status::ReadFault, 5, "read fault"),
        (Status::WriteFault, 6, "write fault"),
        (Status::Budget, 4, "conflicts spent"),
        (Status::Ports, 13, "other ports"),
        (
            Status::Usage,
            1,
            "usage: synth METRIC BOUND CONFLICTS IN STEM, certify METRIC BOUND CONFLICTS IN APPROX STEM, refine METRIC BOUND CONFLICTS IN START STEM, check METRIC BOUND IN STEM, confirm METRIC BOUND IN STEM, flat IN OUT, aag IN OUT, blif IN OUT, trim METRIC BOUND IN STEM OUT, or demo WIDTH BOUND CONFLICTS",
        ),
    ];
    for (status, exit, line) in rows {
        assert!(rt; says(rt.alloc(), &status, exit, line)?, "{line}");
    }
    Ok(())
}
