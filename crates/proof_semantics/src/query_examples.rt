//! Worked examples of queries, computed by the checker: the function's contract is its examples.
ghost use Rattle.proof_semantics.specs.QueryExamples.{QueryExamples};

/// What answers a query about a half adder, and what does not.
pub fn queries()
    ensures { QueryExamples }
{}
