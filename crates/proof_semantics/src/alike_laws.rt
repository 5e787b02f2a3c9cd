//! The laws about alike signals: the function's contract is the laws.
ghost use Rattle.proof_semantics.specs.AlikeLaws.{AlikeLaw};

/// What alike signals are, and that they have the same values.
pub fn alike_signals()
    ensures { AlikeLaw }
{}
