//! Worked examples of the net of the demonstration, computed by the checker: the function's contract is its
//! examples.
ghost use Rattle.job_semantics.specs.DemoExamples.{DemoNetExamples};

/// The nets of one, two and sixteen bits.
pub fn nets()
    ensures { DemoNetExamples }
{}
