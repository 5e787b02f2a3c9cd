//! Worked examples of the definitions, computed by the checker: each function's contract is its examples.
ghost use Rattle.solve_cnf.specs.Examples.{FormulaExamples, RefusalExamples, AnswerExamples, LimitExamples};

/// Texts that mean formulas.
pub fn formulas()
    ensures { FormulaExamples }
{}

/// Texts that mean none.
pub fn refusals()
    ensures { RefusalExamples }
{}

/// The texts of answers.
pub fn answers()
    ensures { AnswerExamples }
{}

/// Words that say how many conflicts are allowed.
pub fn limits()
    ensures { LimitExamples }
{}
