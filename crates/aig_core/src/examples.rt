//! Worked examples of the definitions, computed by the checker: the function's contract is its examples.
ghost use Rattle.aig_core.specs.Examples.{GraphExamples};

/// The graph of a half adder.
pub fn graphs()
    ensures { GraphExamples }
{}
