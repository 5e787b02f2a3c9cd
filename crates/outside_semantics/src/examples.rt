//! Worked examples of the definitions, computed by the checker: each function's contract is its examples.
ghost use Rattle.outside_semantics.specs.Examples.{CountExamples, TurnExamples, AppendExamples};
ghost use Rattle.outside_semantics.specs.Examples.{WrittenExamples, CutExamples};

/// A count of faults that rose, also at its end.
pub fn counts()
    ensures { CountExamples }
{}

/// Read turns, and their number on a name.
pub fn turns()
    ensures { TurnExamples }
{}

/// Texts added to the file that is written.
pub fn appends()
    ensures { AppendExamples }
{}

/// Files written one after another, one name twice.
pub fn written()
    ensures { WrittenExamples }
{}

/// What a fault may leave of two files.
pub fn cut()
    ensures { CutExamples }
{}
