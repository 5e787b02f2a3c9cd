//! One read or one write of a stream, with a count of its faults.
ghost use Rattle.std.specs.Prelude.{◌≡◌, ◌<◌, ◌≤◌, length, take, IfOk, OnOk, OnErr};
ghost use Rattle.std.specs.Io.KnownBytes.{Keeps, Appends, Consumes, IsAtEnd};
ghost use Rattle.file_core.specs.Calls.{one_more};

use file_core::fault::FileFault;
use std::io::{Read, Write};

/// Counts a fault.
pub(crate) fn fault(faults: &mut u64) -> FileFault
    ensures counted { faults.new ≡ one_more faults.old }
    ensures rises { faults.old ≤ faults.new }
{
    *faults = faults.saturating_add(1);
    FileFault
}

/// Reads the next bytes to the front of the buffer, and returns their number. An error is a fault.
pub(crate) fn read_some<S: Read>(
    from: &mut S,
    buffer: &mut [u8],
    faults: &mut u64,
) -> Result<usize, FileFault>
    ensures within { IfOk result (λ n. n ≤ length buffer.new) }
    ensures bytes { IfOk result
        (λ n. Consumes (S.remaining from.old) (S.remaining from.new) (take n buffer.new)) }
    ensures end { IfOk result
        (λ n. n ≡ 0 → 0 < length buffer.new → IsAtEnd (S.remaining from.new)) }
    ensures no_fault { OnOk result (faults.new ≡ faults.old) }
    ensures none_read { OnErr result (Keeps (S.remaining from.old) (S.remaining from.new)) }
    ensures counted { OnErr result (faults.new ≡ one_more faults.old) }
    ensures rises { faults.old ≤ faults.new }
{
    match from.read(buffer) {
        Ok(count) => Ok(count),
        Err(_) => Err(fault(faults)),
    }
}

/// Writes the first bytes of the piece, and returns their number. An error is a fault, and so is a write that
/// takes none of one or more bytes.
pub(crate) fn write_some<S: Write>(
    to: &mut S,
    piece: &[u8],
    faults: &mut u64,
) -> Result<usize, FileFault>
    ensures within { IfOk result (λ n. n ≤ length piece.now) }
    ensures progress { IfOk result (λ n. 0 < length piece.now → 0 < n) }
    ensures bytes { IfOk result
        (λ n. Appends (S.contents to.old) (S.contents to.new) (take n piece.now)) }
    ensures no_fault { OnOk result (faults.new ≡ faults.old) }
    ensures none_written { OnErr result (Keeps (S.contents to.old) (S.contents to.new)) }
    ensures counted { OnErr result (faults.new ≡ one_more faults.old) }
    ensures rises { faults.old ≤ faults.new }
{
    match to.write(piece) {
        Ok(count) if count > 0 || piece.is_empty() => Ok(count),
        _ => Err(fault(faults)),
    }
}
