//! The laws that the solver stands on: each function's contract is a law.
ghost use Rattle.cdcl_core.specs.Laws.{NewClauseLaw, BackLaw, DerivesLaw, SearchLaw};

/// A learned clause contains no clause that is held.
pub fn new_clauses()
    ensures { NewClauseLaw }
{}

/// Going back keeps what is settled below each open level.
pub fn back()
    ensures { BackLaw }
{}

/// The clause of the entries that are left derives, by what the resolved entries explain.
pub fn derives()
    ensures { DerivesLaw }
{}

/// The steps of the search keep what holds before each decision.
pub fn search_steps()
    ensures { SearchLaw }
{}
