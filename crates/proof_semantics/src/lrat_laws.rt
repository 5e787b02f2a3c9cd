//! The laws about reading logs: each function's contract is a law.
ghost use Rattle.proof_semantics.specs.LratLaws.{DerivationTextLaw, GrammarLaw, GrowthLaw, LratRefusalLaw};
ghost use Rattle.proof_semantics.specs.LratLaws.{RoundTripLaw};

/// Which texts are logs, and of which items.
pub fn grammar()
    ensures { GrammarLaw }
{}

/// What is read of a text stays read, however the text goes on.
pub fn growth()
    ensures { GrowthLaw }
{}

/// Which refusals are told within a text, and which at its end alone.
pub fn refusals()
    ensures { LratRefusalLaw }
{}

/// What was written is read back.
pub fn round_trip()
    ensures { RoundTripLaw }
{}

/// What is written of a derivation is read back.
pub fn derivations()
    ensures { DerivationTextLaw }
{}
