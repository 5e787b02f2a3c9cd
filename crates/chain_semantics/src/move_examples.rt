//! Worked examples of moves, flips and cared-for inputs, computed by the checker: each function's contract is
//! its examples.
ghost use Rattle.chain_semantics.specs.MoveExamples.{MoveExamples, FlipExamples, CareExamples};
ghost use Rattle.chain_semantics.specs.PairExamples.{PairExamples};

/// The moves of nets in order, and what they make.
pub fn moves()
    ensures { MoveExamples }
{}

/// Near signals, and moves to two signals.
pub fn pairs()
    ensures { PairExamples }
{}

/// Outputs where a table has the opposite of its value.
pub fn flips()
    ensures { FlipExamples }
{}

/// Inputs at which the value of a table matters, and moves that exceed a bound.
pub fn care()
    ensures { CareExamples }
{}
