//! What the clauses of a certificate come to.
ghost use Rattle.std.specs.Prelude.{◌≡◌};
ghost use Rattle.bundle.specs.Judging.{failing_of};

use cnf_core::cnf::Cnf;
use job_semantics::certificate_clause::Clause;

/// A certificate's formula and what was kept of its log, or the first clause that fails.
#[derive(Drop)]
pub enum Judged<L> {
    /// The formula, and what was kept of the log that refutes it.
    Good { goal: Cnf, log: L },
    /// The first clause that fails.
    Failing(Clause),
}

impl<L> Judged<L> {
    /// The clause that fails first, if one does.
    pub fn failing(&self) -> Option<Clause>
        ensures { result ≡ failing_of self.now }
    {
        match self {
            Judged::Good { .. } => None,
            Judged::Failing(clause) => Some(*clause),
        }
    }
}
