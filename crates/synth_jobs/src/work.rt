//! The answer of the work on a net.
ghost use Rattle.std.specs.Prelude.{◌≡◌};
ghost use Rattle.synth_jobs.specs.Work.{work_exit};

use exit_numbers::numbers::{CONFLICTS_SPENT, DONE, NO_MEMORY, WRITE_FAULT};
use level_answers::query::Spent;

/// What the work on a net comes to.
#[derive(Drop)]
pub enum Work {
    /// The bundle was written and its report put to the sink. Holds the spent query of the search along the
    /// chain, where one was spent: then the report says `minimal no`.
    Done(Option<Spent>),
    /// The spent query of the search for the greatest error, and the spent query of the search along the
    /// chain, where one was spent. Nothing was touched.
    Budget { level: Spent, spent: Option<Spent> },
    /// Memory was wanting. Nothing was touched.
    NoMemory,
    /// A file of the bundle or its report could not be written.
    WriteFault,
}

impl Work {
    /// The exit number of the process.
    pub fn exit(&self) -> u8
        ensures { result ≡ work_exit self.now }
    {
        match self {
            Work::Done(_) => DONE,
            Work::NoMemory => NO_MEMORY,
            Work::Budget { .. } => CONFLICTS_SPENT,
            Work::WriteFault => WRITE_FAULT,
        }
    }
}
