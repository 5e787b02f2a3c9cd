//! Worked examples of trimmed logs, computed by the checker: the function's contract is its examples.
ghost use Rattle.trim_semantics.specs.TrimExamples.{TrimExamples};

/// A step that nothing names, a step that is removed, and a log that stays as it is.
pub fn trimmed_logs()
    ensures { TrimExamples }
{}
