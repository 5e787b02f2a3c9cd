//! Worked examples of certificates, computed by the checker: each function's contract is its examples.
ghost use Rattle.job_semantics.specs.CertificateExamples.{CertificateClauseExamples, HoldingExamples};
ghost use Rattle.job_semantics.specs.CertificateExamples.{FailingExamples, GrowthExamples, MinimalExamples};

/// The numbers of the clauses, and the files that they need.
pub fn clauses()
    ensures { CertificateClauseExamples }
{}

/// Clauses that hold of the texts of a bundle.
pub fn holding()
    ensures { HoldingExamples }
{}

/// The first clause that fails, for texts that are damaged.
pub fn failing()
    ensures { FailingExamples }
{}

/// Vectors that break each move, and vectors that do not.
pub fn minimal()
    ensures { MinimalExamples }
{}

/// A net that is larger than the original, which one of the two clauses on the counts allows.
pub fn growth()
    ensures { GrowthExamples }
{}
