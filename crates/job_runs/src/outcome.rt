//! The answer of a run, with the spent queries.
ghost use Rattle.std.specs.Prelude.{◌≡◌};
ghost use Rattle.job_runs.specs.Outcome.{without_query, outcome_of};

pub use job_answers::status::Status;
use level_answers::query::Spent;
use synth_jobs::work::Work;

/// The status that a run answers, and the spent queries.
#[derive(Drop)]
pub struct Outcome {
    pub status: Status,
    /// The spent query of the search along the chain: with `Budget`, or with `Done` where the report says
    /// `minimal no`.
    pub spent: Option<Spent>,
    /// The spent query of the search for the greatest error, or of the question whether a second net keeps
    /// the bound: with `Budget` alone.
    pub level: Option<Spent>,
}

/// An answer without a spent query.
pub fn only(status: Status) -> Outcome
    ensures { result ≡ without_query status }
{
    Outcome {
        status,
        spent: None,
        level: None,
    }
}

/// The answer that tells what the work on a net came to.
pub fn outcome_of(work: Work) -> Outcome
    ensures { result ≡ outcome_of work }
{
    match work {
        Work::Done(spent) => Outcome {
            status: Status::Done,
            spent,
            level: None,
        },
        Work::Budget { level, spent } => Outcome {
            status: Status::Budget,
            spent,
            level: Some(level),
        },
        Work::NoMemory => only(Status::NoMemory),
        Work::WriteFault => only(Status::WriteFault),
    }
}
