//! Worked examples of the definitions, computed by the checker: each function's contract is its examples.
ghost use Rattle.semantics.specs.Examples.{ValueExamples, ErrorExamples, SignedExamples, TextExamples};
ghost use Rattle.semantics.specs.Examples.{ChangeExamples, RefusalExamples, LimitExamples, NameExamples};
ghost use Rattle.semantics.specs.Examples.{WordExamples};

/// Values of tables in and out of order, and counts.
pub fn values()
    ensures { ValueExamples }
{}

/// The errors of unsigned words, and those of a half adder whose tables become constants.
pub fn errors()
    ensures { ErrorExamples }
{}

/// Outputs that are cut into words.
pub fn words()
    ensures { WordExamples }
{}

/// Numbers in two's complement, and the signed error.
pub fn signed_errors()
    ensures { SignedExamples }
{}

/// The texts of nets.
pub fn texts()
    ensures { TextExamples }
{}

/// Tables that stand in others, and tables replaced, copied, renamed and left out.
pub fn changes()
    ensures { ChangeExamples }
{}

/// What parts of a net are refused for, in the order of the refusals.
pub fn refusals()
    ensures { RefusalExamples }
{}

/// The largest sizes of a netlist that is read, and the next ones.
pub fn limits()
    ensures { LimitExamples }
{}

/// What is a name, and what is none.
pub fn names()
    ensures { NameExamples }
{}
