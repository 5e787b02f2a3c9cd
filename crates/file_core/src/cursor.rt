//! A place in a list of files in memory.
ghost use Rattle.std.specs.Prelude.{◌≡◌, ◌-◌, min, length, take, drop};

/// The file that is read, by its place in the list, and the place of its next byte.
#[derive(Clone, Copy, Debug)]
pub(crate) struct Cursor {
    pub(crate) file: usize,
    pub(crate) at: usize,
}

/// Puts the next bytes of the content, at most `limit`, at the front of the buffer, and returns their number.
pub(crate) fn copy_next(content: &[u8], at: usize, limit: usize, buffer: &mut [u8]) -> usize
    ensures count { result ≡ min (min (length buffer.old) limit) (length content.now - at) }
    ensures bytes { take result buffer.new ≡ take result (drop at content.now) }
{
    let start = at.min(content.len());
    let rest = &content[start..];
    let count = buffer.len().min(limit).min(rest.len());
    buffer[..count].copy_from_slice(&rest[..count]);
    count
}
