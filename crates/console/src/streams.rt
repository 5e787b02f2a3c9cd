//! The numbers of the three standard streams. Where a process was started with some of them closed, a file
//! that it opens would get the number of a closed stream, and what goes to that stream would land in the
//! file.
ghost use Rattle.std.specs.Prelude.{IfOk, IsErr, codes};
ghost use Rattle.console.specs.Options.{to_read};
ghost use Rattle.console.specs.Streams.{IsNothing, AreHeld};

use crate::paths::Paths;
use crate::real_files::options_of_open;
use std::io;

/// What is opened in place of a closed stream: for reading alone, so that each write to it fails.
const NOTHING: &str = "/dev/null";

/// What is opened where there is no such device. No write to a folder is taken either.
const ROOT: &str = "/";

/// Three files that nothing is read from. They have the numbers of those streams that were closed, until this
/// value goes.
#[derive(Drop)]
pub struct HeldStreams<F: Drop> {
    first: F,
    second: F,
    third: F,
}

/// A file that nothing can be written to.
fn open_nothing<P: Paths>(paths: &P) -> io::Result<P::File>
    ensures opens { IfOk result (IsNothing (P.opened paths.now)) }
    ensures refuses { IsErr result → P.refused paths.now to_read (codes "/") }
{
    match paths.open_at(&options_of_open(), NOTHING) {
        Ok(file) => Ok(file),
        Err(_) => paths.open_at(&options_of_open(), ROOT),
    }
}

/// Holds the numbers of the three standard streams: each open takes the least number that is free. It is an
/// error where three files cannot be opened.
pub fn hold_streams<P: Paths>(paths: &P) -> io::Result<HeldStreams<P::File>>
    ensures held { IfOk result (AreHeld (P.opened paths.now)) }
    ensures refuses { IsErr result → P.refused paths.now to_read (codes "/") }
{
    Ok(HeldStreams {
        first: open_nothing(paths)?,
        second: open_nothing(paths)?,
        third: open_nothing(paths)?,
    })
}
