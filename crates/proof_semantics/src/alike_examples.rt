//! Worked examples of alike tables: the function's contract is its examples.
ghost use Rattle.proof_semantics.specs.AlikeExamples.{AlikeExamples};

/// Tables that are alike, and tables that are not.
pub fn alike_tables()
    ensures { AlikeExamples }
{}
