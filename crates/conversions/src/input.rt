//! IN as a text, and as the net that it holds.
ghost use Rattle.std.specs.Prelude.{IfOk, IfErr};
ghost use Rattle.conversions.specs.Input.{FrontRead, FrontUnread, NetRead, NetUnread};

use blif_text::reading::read_blif;
use file_core::files::Files;
use file_reading::front::Front;
use file_reading::reading::read_file;
use file_reading::unread::Unread;
use job_answers::refused::blif_answer;
use job_answers::status::Status;
use job_answers::unread::answer_of_unread;
use net_core::net::Net;
use semantics::limits::MOST_INPUT_BYTES;
use std::alloc::Global;

/// Reads a file no further than one byte past the limit, so that no file is endless. Where the file cannot be
/// read, the error is the answer of the run.
pub fn read_front<F: Files>(alloc: Global, files: &mut F, name: &[u8]) -> Result<Front, Status>
    ensures ok { IfOk result (λ front. FrontRead (F.told files.old) (F.told files.new) name.now front.bytes) }
    ensures err { IfErr result (FrontUnread (F.told files.old) (F.told files.new) name.now) }
{
    let mut front = Front::new(alloc, MOST_INPUT_BYTES);
    let read = read_file(files, name, &mut front);
    let _ = front.bytes();
    match read {
        Ok(()) => Ok(front),
        Err(Unread::Endless) => unreachable!(),
        Err(reason) => Err(answer_of_unread(reason)),
    }
}

/// Reads a file, and makes the net of its text. Where there is no net, the error is the answer of the run.
pub fn read_net<F: Files>(alloc: Global, files: &mut F, name: &[u8]) -> Result<Net, Status>
    ensures ok { IfOk result (NetRead (F.told files.old) (F.told files.new) name.now) }
    ensures err { IfErr result (NetUnread (F.told files.old) (F.told files.new) name.now) }
{
    let front = match read_front(alloc, files, name) {
        Ok(front) => front,
        Err(answer) => return Err(answer),
    };
    match read_blif(alloc, front.bytes(), MOST_INPUT_BYTES as u64) {
        Ok(net) => Ok(net),
        Err(reason) => Err(blif_answer(reason)),
    }
}
