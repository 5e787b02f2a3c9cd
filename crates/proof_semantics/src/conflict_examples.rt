//! Worked examples of chains of conflicts, computed by the checker: each function's contract is its examples.
ghost use Rattle.proof_semantics.specs.ConflictExamples.{ConflictExamples, EnoughExamples};

/// Chains, and logs that are none.
pub fn conflicts()
    ensures { ConflictExamples }
{}

/// Limits that are enough, and limits that are not.
pub fn enough()
    ensures { EnoughExamples }
{}
