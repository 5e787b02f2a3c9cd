//! The laws about what a text of several models means: each function's contract is a law.
ghost use Rattle.hierarchy_semantics.specs.Counts.{CountLaw};
ghost use Rattle.hierarchy_semantics.specs.Laws.{FlatLaw};
ghost use Rattle.hierarchy_semantics.specs.RefusalLaws.{AcceptedLaw};

/// Which models have no refusal.
pub fn hierarchies()
    ensures { AcceptedLaw }
{}

/// The flat net gives each place of the hierarchy its value.
pub fn flat_nets()
    ensures { FlatLaw }
{}

/// The sizes of the flat net are counted over the statements.
pub fn counts()
    ensures { CountLaw }
{}
