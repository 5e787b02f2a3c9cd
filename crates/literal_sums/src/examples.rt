//! Worked examples of the definitions, computed by the checker: each function's contract is its examples.
ghost use Rattle.literal_sums.specs.Examples.{AdderExamples, SumExamples};

/// Sums, their weights and a word.
pub fn sums()
    ensures { SumExamples }
{}

/// The adder of the graph of a half adder.
pub fn adders()
    ensures { AdderExamples }
{}
