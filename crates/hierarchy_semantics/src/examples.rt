//! Worked examples of the definitions, computed by the checker: each function's contract is its examples.
ghost use Rattle.hierarchy_semantics.specs.Examples.{FullAdderExamples, HierRefusalExamples};

/// A full adder of two half adders, and three texts near it that are refused.
pub fn full_adder()
    ensures { FullAdderExamples }
{}

/// Each refusal of models.
pub fn refusals()
    ensures { HierRefusalExamples }
{}
