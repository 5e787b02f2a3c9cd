//! A file from its first byte on. A file without an end is read no further than the budget of turns.
ghost use Rattle.std.specs.Prelude.{◌≡◌, ◌≤◌, [], ◌++◌, length, take, Err, IfOk, IfErr, OnOk, OnErr, IsTrue};
ghost use Rattle.semantics.specs.Texts.{Bytes};
ghost use Rattle.outside_semantics.specs.Outside.{FilesTold, Opened};
ghost use Rattle.file_reading.specs.Reading.{TurnRead, FileRead, IsFrontOf};
ghost use Rattle.file_reading.specs.Refused.{TurnRefused, FileUnread};

use crate::intake::Intake;
use crate::unread::Unread;
use file_core::files::Files;
use std::alloc::AllocError;

/// The number of turns in which a file is asked for more; each turn after which the reading goes on gives at
/// least one byte.
const TURNS: u64 = 1 << 40;

/// The most bytes that a turn asks for here, fewer than a read turn may ask for: they lie on the stack, which
/// cannot grow once memory is short.
const PAGE_BYTES: usize = 4096;

/// Hands on the first bytes of the buffer.
fn take_front<I: Intake>(intake: &mut I, buffer: &[u8], count: usize) -> Result<(), AllocError>
    requires within { count ≤ length buffer.now }
    requires wanted { count ≤ I.room intake.old }
    ensures text { OnOk result (I.text intake.new ≡ I.text intake.old ++ take count buffer.now) }
    ensures aim { I.aim intake.new ≡ I.aim intake.old }
    ensures err { OnErr result (IsTrue I.takes_memory) }
{
    intake.take(&buffer[..count])
}

/// Hands on the next bytes of the open file, through the buffer, and returns whether there were any. Where
/// none are wanted, the file is not asked.
fn read_turn<F: Files, I: Intake>(
    files: &mut F,
    intake: &mut I,
    buffer: &mut [u8],
) -> Result<bool, Unread>
    requires { length buffer.old ≡ PAGE_BYTES }
    ensures ok { IfOk result
        (λ more. TurnRead (record { told = F.told files.old; text = I.text intake.old })
        (record { told = F.told files.new; text = I.text intake.new }) (I.room intake.new) more) }
    ensures aim { I.aim intake.new ≡ I.aim intake.old }
    ensures err { IfErr result (TurnRefused (F.told files.old) (F.told files.new)) }
    ensures fault { result ≡ Err Unread.Fault → I.text intake.new ≡ I.text intake.old }
    ensures memory { result ≡ Err Unread.OutOfMemory → IsTrue I.takes_memory }
{
    let room = intake.wanted().min(buffer.len());
    if room == 0 {
        return Ok(false);
    }
    let part = &mut buffer[..room];
    let count = files.read(part)?;
    if count == 0 {
        return Ok(false);
    }
    take_front(intake, part, count)?;
    Ok(true)
}

/// Hands on the bytes of the file that was just opened, all bytes or as many as are wanted. The clauses hold
/// for any moment at which the file was opened.
fn read_opened<F: Files, I: Intake>(files: &mut F, intake: &mut I) -> Result<(), Unread>
    requires { I.text intake.old ≡ [] }
    ensures ok { (before : FilesTold) (name : Bytes) → Opened before (F.told files.old) name → OnOk result
        (FileRead before (F.told files.new) name (I.text intake.new) (I.room intake.new)) }
    ensures aim { I.aim intake.new ≡ I.aim intake.old }
    ensures err { (before : FilesTold) (name : Bytes) → Opened before (F.told files.old) name → IfErr result
        (FileUnread before (F.told files.new) name (I.text intake.new)) }
    ensures front { (before : FilesTold) (name : Bytes) → Opened before (F.told files.old) name
        → result ≡ Err Unread.Fault → IsFrontOf before (F.told files.new) name (I.text intake.new) }
    ensures memory { result ≡ Err Unread.OutOfMemory → IsTrue I.takes_memory }
{
    let mut buffer = [0u8; PAGE_BYTES];
    for turn in 0..TURNS {
        if !read_turn(files, intake, &mut buffer)? {
            return Ok(());
        }
    }
    Err(Unread::Endless)
}

/// Hands on the bytes of a file, all bytes or as many as are wanted.
pub fn read_file<F: Files, I: Intake>(
    files: &mut F,
    name: &[u8],
    intake: &mut I,
) -> Result<(), Unread>
    requires { I.text intake.old ≡ [] }
    ensures ok { OnOk result
        (FileRead (F.told files.old) (F.told files.new) name.now (I.text intake.new) (I.room intake.new)) }
    ensures aim { I.aim intake.new ≡ I.aim intake.old }
    ensures err { IfErr result
        (FileUnread (F.told files.old) (F.told files.new) name.now (I.text intake.new)) }
    ensures front { result ≡ Err Unread.Fault
        → IsFrontOf (F.told files.old) (F.told files.new) name.now (I.text intake.new) }
    ensures memory { result ≡ Err Unread.OutOfMemory → IsTrue I.takes_memory }
{
    files.open_file(name)?;
    read_opened(files, intake)
}
