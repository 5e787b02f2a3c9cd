//! Worked examples of the definitions, computed by the checker: each function's contract is its examples.
ghost use Rattle.proof_semantics.specs.Examples.{ClauseExamples, DimacsExamples, LogExamples, LratExamples};
ghost use Rattle.proof_semantics.specs.Examples.{MiterExamples};

/// The clauses of small nets.
pub fn clauses()
    ensures { ClauseExamples }
{}

/// The texts of small formulas.
pub fn dimacs_texts()
    ensures { DimacsExamples }
{}

/// Steps and logs over three clauses.
pub fn logs()
    ensures { LogExamples }
{}

/// The texts of small logs.
pub fn lrat_texts()
    ensures { LratExamples }
{}

/// How large the miters of small nets are.
pub fn miters()
    ensures { MiterExamples }
{}
