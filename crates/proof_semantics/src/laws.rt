//! The laws about clauses and logs: each function's contract is a law.
ghost use Rattle.proof_semantics.specs.Laws.{NetClauseLaw, GoalLaw, ClauseCountLaw, RefutationLaw, MiterLaw};

/// At each input vector one assignment satisfies the clauses of a net.
pub fn net_clauses()
    ensures { NetClauseLaw }
{}

/// The goal of a net can be satisfied exactly where an input vector makes its signal true.
pub fn goals()
    ensures { GoalLaw }
{}

/// How many clauses there are, and over which variables.
pub fn clause_counts()
    ensures { ClauseCountLaw }
{}

/// What a log refutes.
pub fn refutations()
    ensures { RefutationLaw }
{}

/// What the miter of two nets says.
pub fn miters()
    ensures { MiterLaw }
{}
