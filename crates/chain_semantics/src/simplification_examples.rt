//! A worked example of simplifications, computed by the checker: the function's contract is the example.
ghost use Rattle.chain_semantics.specs.SimplificationExamples.{SimplificationExamples};

/// The half adder within 1, from its net to the end.
pub fn simplifications()
    ensures { SimplificationExamples }
{}
