//! The answer that tells why IN is refused. Want of memory is no refusal, and is told as such.
ghost use Rattle.std.specs.Prelude.{◌≡◌};
ghost use Rattle.job_answers.specs.Refused.{blif_answer, hier_answer, aiger_answer};

use crate::status::Status;
use aiger_text::refusal::AigerRefusal;
use blif_text::refusal::BlifRefusal;
use hier_blif::refusal::HierRefusal;

/// The answer for a text that is no net.
pub fn blif_answer(reason: BlifRefusal) -> Status
    ensures { result ≡ blif_answer reason }
{
    match reason {
        BlifRefusal::OutOfMemory => Status::NoMemory,
        reason => Status::Text(reason),
    }
}

/// The answer for a text that is no hierarchy of models with a flat net.
pub fn hier_answer(reason: HierRefusal) -> Status
    ensures { result ≡ hier_answer reason }
{
    match reason {
        HierRefusal::OutOfMemory => Status::NoMemory,
        reason => Status::Hier(reason),
    }
}

/// The answer for a text that is no AND circuit of a net.
pub fn aiger_answer(reason: AigerRefusal) -> Status
    ensures { result ≡ aiger_answer reason }
{
    match reason {
        AigerRefusal::OutOfMemory => Status::NoMemory,
        reason => Status::Aiger(reason),
    }
}
