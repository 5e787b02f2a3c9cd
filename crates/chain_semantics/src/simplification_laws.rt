//! The laws about the simplifications of a net: each function's contract is a law.
ghost use Rattle.chain_semantics.specs.SimplificationLaws.{SimplificationLaw, BeginningLaw};

/// Simplifications end at one net, and what each member keeps.
pub fn simplification()
    ensures { SimplificationLaw }
{}

/// The same of a chain that begins with another net than the exact one.
pub fn beginnings()
    ensures { BeginningLaw }
{}
