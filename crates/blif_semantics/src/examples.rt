//! Worked examples of the definitions, computed by the checker: each function's contract is its examples.
ghost use Rattle.blif_semantics.specs.Examples.{LineExamples, WrongExamples, ReadingExamples};
ghost use Rattle.blif_semantics.specs.Examples.{SeveralExamples};

/// Texts as logical lines of words.
pub fn lines()
    ensures { LineExamples }
{}

/// Lines that are wrong.
pub fn wrong_lines()
    ensures { WrongExamples }
{}

/// Texts that are read, and texts that are refused as a whole.
pub fn readings()
    ensures { ReadingExamples }
{}

/// Lists in several lines, words in two lines, and texts for which several refusals hold.
pub fn several()
    ensures { SeveralExamples }
{}
