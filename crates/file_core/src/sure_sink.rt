//! A sink that never fails and keeps nothing.
ghost use Rattle.std.specs.Prelude.{◌≡◌, ◌<◌, ◌≤◌, [], length, take, IsOk, IfOk, OnErr};
ghost use Rattle.outside_semantics.specs.Outside.{Took, TakeFailed};
ghost use Rattle.file_core.specs.Sure.{sure_sink_told};

use crate::fault::FileFault;
use crate::sink::Sink;

/// Takes every byte and forgets it.
#[derive(Clone, Copy, Debug)]
pub struct SureSink;

impl SureSink {
    /// The sink.
    pub fn new() -> SureSink
        ensures { result ≡ record {} }
    {
        SureSink
    }
}

impl Sink for SureSink {
    ghost told = { λ _. sure_sink_told };

    fn put(&mut self, piece: &[u8]) -> Result<usize, FileFault>
        ensures within { IfOk result (λ n. n ≤ length piece.now) }
        ensures progress { IfOk result (λ n. 0 < length piece.now → 0 < n) }
        ensures ok { IfOk result (λ n. Took sure_sink_told sure_sink_told (take n piece.now)) }
        ensures err { OnErr result (TakeFailed sure_sink_told sure_sink_told []) }
        ensures sure { IsOk result }
        ensures whole { IfOk result (λ n. n ≡ length piece.now) }
    {
        Ok(piece.len())
    }
}
