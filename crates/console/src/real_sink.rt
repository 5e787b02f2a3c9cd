//! A stream of bytes as a sink, as standard output is. It tells nothing but the count of its faults.
ghost use Rattle.std.specs.Prelude.{◌≡◌, ◌<◌, ◌≤◌, [], None, length, take, IfOk, OnErr};
ghost use Rattle.std.specs.Io.KnownBytes.{Appends, Keeps};
ghost use Rattle.outside_semantics.specs.Outside.{Took, TakeFailed};
ghost use Rattle.console.specs.Untold.{untold_sink};

use crate::counted::write_some;
use file_core::fault::FileFault;
use file_core::sink::Sink;
use std::io::Write;

/// A stream that is written to. Nothing is kept in a buffer.
#[derive(Drop)]
pub struct RealSink<W: Write + Drop> {
    to: W,
    faults: u64,
}

impl<W: Write + Drop> RealSink<W> {
    /// This stream, of which no call has failed.
    pub fn new(to: W) -> Self
        ensures faults { result.faults ≡ 0 }
        ensures to { result.to ≡ to }
    {
        RealSink { to, faults: 0 }
    }
}

impl<W: Write + Drop> Sink for RealSink<W> {
    ghost told = { λ s. untold_sink s.faults };

    fn put(&mut self, piece: &[u8]) -> Result<usize, FileFault>
        ensures within { IfOk result (λ n. n ≤ length piece.now) }
        ensures progress { IfOk result (λ n. 0 < length piece.now → 0 < n) }
        ensures ok { IfOk result
            (λ n. Took (untold_sink self.old.faults) (untold_sink self.new.faults) (take n piece.now)) }
        ensures err { OnErr result
            (TakeFailed (untold_sink self.old.faults) (untold_sink self.new.faults) []) }
        ensures bytes { IfOk result
            (λ n. Appends (W.contents self.old.to) (W.contents self.new.to) (take n piece.now)) }
        ensures none_written { OnErr result (Keeps (W.contents self.old.to) (W.contents self.new.to)) }
    {
        write_some(&mut self.to, piece, &mut self.faults)
    }
}
