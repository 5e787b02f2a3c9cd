//! The answer that tells why a file was not read.
ghost use Rattle.std.specs.Prelude.{◌≡◌};
ghost use Rattle.job_answers.specs.Unread.{answer_of_unread};

use crate::status::Status;
use file_reading::unread::Unread;

/// The answer where a file that is needed could not be read.
pub fn answer_of_unread(reason: Unread) -> Status
    ensures { result ≡ answer_of_unread reason }
{
    match reason {
        Unread::Fault => Status::ReadFault,
        Unread::OutOfMemory => Status::NoMemory,
        Unread::Endless => Status::Endless,
    }
}
