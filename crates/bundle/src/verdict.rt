//! What the check of a bundle answers.
ghost use Rattle.std.specs.Prelude.{◌≡◌};
ghost use Rattle.job_semantics.specs.Certificate.{clause_number};
ghost use Rattle.bundle.specs.Judging.{verdict_of};

use job_semantics::certificate_clause::Clause;

/// Whether the texts of a bundle are a certificate.
#[derive(Clone, Copy, Debug, Drop, PartialEq, Eq)]
pub enum Verdict {
    Verified,
    /// The clause of this number, from 1, is the first that fails.
    Refuted(u8),
}

/// The number of a clause, from 1.
pub(crate) fn clause_number(clause: Clause) -> u8
    ensures { result ≡ clause_number clause }
{
    match clause {
        Clause::Netlist => 1,
        Clause::Ports => 2,
        Clause::ReportForm => 3,
        Clause::MaximumWithin => 4,
        Clause::Witness => 5,
        Clause::Attained => 6,
        Clause::Formula => 7,
        Clause::Log => 8,
        Clause::Counts => 9,
        Clause::Minimal => 10,
    }
}

impl Verdict {
    /// The verdict where `failing` is the first failing clause, or where no clause fails.
    pub(crate) fn of(failing: Option<Clause>) -> Verdict
        ensures { result ≡ verdict_of failing }
    {
        match failing {
            None => Verdict::Verified,
            Some(clause) => Verdict::Refuted(clause_number(clause)),
        }
    }
}
