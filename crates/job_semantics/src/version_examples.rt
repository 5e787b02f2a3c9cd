//! Worked examples of the two versions of a bundle, computed by the checker: the function's contract is its
//! examples.
ghost use Rattle.job_semantics.specs.VersionExamples.{VersionExamples};

/// A bundle that is a certificate in version 1; in version 2 its last clause fails, and no other.
pub fn versions()
    ensures { VersionExamples }
{}
