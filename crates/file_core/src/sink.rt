//! A sink of bytes, by what it tells. Standard output tells nothing but its count of faults.
ghost use Rattle.std.specs.Prelude.{◌≤◌, ◌<◌, [], length, take, IfOk, OnErr};
ghost use Rattle.outside_semantics.specs.Outside.{SinkTold, Took, TakeFailed};

use crate::fault::FileFault;

/// Takes bytes, one after another.
pub trait Sink {
    /// What the sink tells: the bytes that were put, and the count of faults.
    ghost told: { Self → SinkTold };

    /// Puts the first bytes of the piece, and returns their number.
    fn put(&mut self, piece: &[u8]) -> Result<usize, FileFault>
        ensures within { IfOk result (λ n. n ≤ length piece.now) }
        ensures progress { IfOk result (λ n. 0 < length piece.now → 0 < n) }
        ensures ok { IfOk result (λ n. Took (told self.old) (told self.new) (take n piece.now)) }
        ensures err { OnErr result (TakeFailed (told self.old) (told self.new) []) };
}
