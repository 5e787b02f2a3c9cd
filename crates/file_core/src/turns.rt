//! The read turns, which only contracts and proofs read.
ghost use Rattle.std.specs.Prelude.{◌≡◌};
ghost use Rattle.outside_semantics.specs.Outside.{turns_after};

use history::reads::Reads;

/// The most bytes that a read turn asks for.
pub const TURN_BYTES: usize = 65536;

/// Counts a read of the open file that asked for `asked` bytes and gave `count`. The read is a turn where it
/// asked for at most `TURN_BYTES` bytes and gave at least one.
pub fn count_read(reads: &mut Reads, asked: usize, count: usize)
    ensures opened { reads.new.opened ≡ reads.old.opened }
    ensures turns { reads.new.turns ≡ turns_after reads.old.opened asked count reads.old.turns }
{
    if asked <= TURN_BYTES && count > 0 {
        *reads = reads.turn();
    }
}
