//! The laws about chains of conflicts: each function's contract is a law.
ghost use Rattle.proof_semantics.specs.ConflictLaws.{DerivationLaw, ConflictLaw, EnoughLaw};

/// How a derivation goes on.
pub fn derivations()
    ensures { DerivationLaw }
{}

/// How a chain of conflicts goes on, and that its clauses differ.
pub fn conflicts()
    ensures { ConflictLaw }
{}

/// What stays enough.
pub fn enough()
    ensures { EnoughLaw }
{}
