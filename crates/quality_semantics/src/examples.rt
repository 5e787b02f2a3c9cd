//! Worked examples of the definitions, computed by the checker: each function's contract is its examples.
ghost use Rattle.quality_semantics.specs.Examples.{AbsoluteExamples, SignedExamples, OtherExamples};
ghost use Rattle.quality_semantics.specs.Examples.{WordExamples, MultiplierExamples, JointExamples};

/// Networks of the absolute error.
pub fn absolute()
    ensures { AbsoluteExamples }
{}

/// Networks of the error of signed words.
pub fn signed()
    ensures { SignedExamples }
{}

/// Networks of the other two errors.
pub fn others()
    ensures { OtherExamples }
{}

/// Networks of outputs that are cut into words.
pub fn words()
    ensures { WordExamples }
{}

/// Multipliers of one, two, four and five bits.
pub fn multipliers()
    ensures { MultiplierExamples }
{}

/// Joint nets.
pub fn joint_nets()
    ensures { JointExamples }
{}
