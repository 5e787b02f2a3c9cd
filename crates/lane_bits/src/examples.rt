//! Worked examples of the definitions, computed by the checker: each function's contract is its examples.
ghost use Rattle.lane_bits.specs.Examples.{RowExamples, PatternExamples, EveryVectorExamples};

/// Bits of rows, and how many words they take.
pub fn rows()
    ensures { RowExamples }
{}

/// The vectors that rows hold.
pub fn patterns()
    ensures { PatternExamples }
{}

/// Which sets have every vector.
pub fn every_vector()
    ensures { EveryVectorExamples }
{}
