//! Worked examples of reading logs, computed by the checker.
ghost use Rattle.proof_semantics.specs.LratExamples.{LratReadingExamples};

/// Texts, their items and their refusals.
pub fn texts()
    ensures { LratReadingExamples }
{}
