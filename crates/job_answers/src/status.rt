//! The answer of a run.
ghost use Rattle.std.specs.Prelude.{◌≡◌};
ghost use Rattle.job_answers.specs.Exit.{exit_number};

use crate::bits_text::BitsText;
use aiger_text::refusal::AigerRefusal;
use blif_text::refusal::BlifRefusal;
use command_words::usage::usage_line;
use exit_numbers::numbers::{
    ABOVE_BOUND, CIRCUIT_REFUSED, CONFLICTS_SPENT, DONE, ENDLESS, HIERARCHY_REFUSED, NO_MEMORY,
    OTHER_PORTS, READ_FAULT, REFUTED, SECOND_REFUSED, TEXT_REFUSED, USAGE, WRITE_FAULT,
};
use hier_blif::refusal::HierRefusal;
use net_core::items::Bits;
use std::fmt;

/// The answer of a run.
#[derive(Drop)]
pub enum Status {
    /// The files were written, and the report of a bundle was put.
    Done,
    /// The files of the bundle are a certificate.
    Verified,
    /// The clause of this number, from 1, is the first of a certificate that fails.
    Refuted(u8),
    /// The words are no job.
    Usage,
    /// The input is refused as a net.
    Text(BlifRefusal),
    /// Want of memory.
    NoMemory,
    /// A question about a level of the error spent its conflicts.
    Budget,
    /// A file that is needed could not be read.
    ReadFault,
    /// A file or the report could not be written.
    WriteFault,
    /// A file of the bundle goes on past the budget of turns.
    Endless,
    /// The input is refused as a hierarchy of models.
    Hier(HierRefusal),
    /// The input is refused as an AND circuit.
    Aiger(AigerRefusal),
    /// The second netlist is refused.
    Second(BlifRefusal),
    /// The second netlist has other ports than the input.
    Ports,
    /// The error of the second netlist exceeds the bound at this input vector.
    Over(Bits),
}

impl Status {
    /// The exit number of the process.
    pub fn exit(&self) -> u8
        ensures { result ≡ exit_number self.now }
    {
        match self {
            Status::Done | Status::Verified => DONE,
            Status::Usage => USAGE,
            Status::Text(_) => TEXT_REFUSED,
            Status::NoMemory => NO_MEMORY,
            Status::Budget => CONFLICTS_SPENT,
            Status::ReadFault => READ_FAULT,
            Status::WriteFault => WRITE_FAULT,
            Status::Refuted(_) => REFUTED,
            Status::Endless => ENDLESS,
            Status::Hier(_) => HIERARCHY_REFUSED,
            Status::Aiger(_) => CIRCUIT_REFUSED,
            Status::Second(_) => SECOND_REFUSED,
            Status::Ports => OTHER_PORTS,
            Status::Over(_) => ABOVE_BOUND,
        }
    }
}

/// The line on standard error, without the program's name.
impl fmt::Display for Status {
    ghost use Rattle.std.specs.Prelude.{Some};
    ghost use Rattle.job_answers.specs.Line.{status_text};

    ghost output = { λ s. Some (status_text s) };

    fn fmt<W: fmt::Write>(&self, f: &mut fmt::Formatter<W>) -> fmt::Result {
        match self {
            Status::Done => f.write_str("done"),
            Status::Verified => f.write_str("verified"),
            Status::Refuted(number) => write!(f, "refuted by clause {number}"),
            Status::Endless => f.write_str("input without end"),
            Status::Usage => f.write_str(usage_line()),
            Status::Text(reason) => reason.fmt(f),
            Status::Hier(reason) => write!(f, "hierarchy refusal {}", reason.number()),
            Status::Aiger(reason) => write!(f, "aiger refusal {}", reason.number()),
            Status::Second(reason) => write!(f, "second netlist: {reason}"),
            Status::Ports => f.write_str("other ports"),
            Status::Over(x) => write!(f, "error above the bound at {}", BitsText(x.as_slice())),
            Status::NoMemory => f.write_str("out of memory"),
            Status::Budget => f.write_str("conflicts spent"),
            Status::ReadFault => f.write_str("read fault"),
            Status::WriteFault => f.write_str("write fault"),
        }
    }
}
