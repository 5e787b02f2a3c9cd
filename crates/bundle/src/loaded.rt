//! What the load of a bundle answers.
ghost use Rattle.std.specs.Prelude.{◌≡◌};
ghost use Rattle.bundle.specs.Loading.{loaded_of};

use crate::judged::Judged;
use crate::verdict::clause_number;
use cnf_core::cnf::Cnf;
use cnf_core::log::Log;

/// What a bundle proves, and how.
#[derive(Drop)]
pub enum Loaded {
    /// The texts of the bundle are a certificate: the formula that says that some error exceeds its maximum,
    /// and the items of its log, which refutes that formula.
    Good { goal: Cnf, log: Log },
    /// The clause of this number, from 1, is the first that fails.
    Refuted(u8),
}

impl Loaded {
    /// What the clauses came to, where all items of the log were kept.
    pub(crate) fn of(judged: Judged<Log>) -> Loaded
        ensures { result ≡ loaded_of judged }
    {
        match judged {
            Judged::Good { goal, log } => Loaded::Good { goal, log },
            Judged::Failing(clause) => Loaded::Refuted(clause_number(clause)),
        }
    }
}
