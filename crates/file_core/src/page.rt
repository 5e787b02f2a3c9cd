//! Short pieces are gathered in a page of fixed size, so that few calls of `append` are made and nothing is
//! allocated.
ghost use Rattle.std.specs.Prelude.{◌≡◌, ◌+◌, ◌≤◌, ◌↔◌, ℕ, List, [], ◌++◌, length, take, IsTrue, IsOk, OnOk};
ghost use Rattle.std.specs.Prelude.{OnErr};
ghost use Rattle.file_core.specs.Page.{Gathers, Writes, with_page};
ghost use Rattle.file_core.specs.Pieces.{joined};

use crate::append::append_all;
use crate::fault::FileFault;
use crate::files::Files;
use std::marker::Model;

/// The number of bytes that a page holds.
pub const PAGE_BYTES: usize = 4096;

/// The bytes that were gathered and not yet appended.
#[derive(Drop)]
pub struct Page {
    bytes: [u8; PAGE_BYTES],
    len: usize,
}

impl Model for Page {
    ghost Value = { List ℕ };

    ghost view = { λ p. take p.len p.bytes };

    ghost invariant = { λ p. p.len ≤ 4096 };
}

impl Page {
    /// The page without bytes.
    pub fn new() -> Page
        ensures { result ≡ [] }
    {
        Page {
            bytes: [0; PAGE_BYTES],
            len: 0,
        }
    }

    /// Whether the page has room for the whole piece.
    fn has_room(&self, piece: &[u8]) -> bool
        ensures { IsTrue result ↔ (length self.now + length piece.now ≤ PAGE_BYTES) }
    {
        piece.len() <= PAGE_BYTES - self.len
    }

    fn bytes(&self) -> &[u8]
        ensures { result.now ≡ self.now }
    {
        &self.bytes[..self.len]
    }

    fn put(&mut self, piece: &[u8])
        requires { length self.old + length piece.now ≤ PAGE_BYTES }
        ensures { self.new ≡ self.old ++ piece.now }
    {
        let start = self.len;
        let end = start + piece.len();
        self.bytes[start..end].copy_from_slice(piece);
        self.len = end;
    }

    fn clear(&mut self)
        ensures { self.new ≡ [] }
    {
        self.len = 0;
    }
}

/// Puts the piece into the page, and appends what does not fit. A fault empties the page.
pub fn gather<F: Files>(files: &mut F, page: &mut Page, piece: &[u8]) -> Result<(), FileFault>
    ensures gathers { Gathers result (with_page (F.told files.old) page.old)
        (with_page (F.told files.new) page.new) piece.now }

    // A piece that fits makes no call.
    ensures fits { length page.old + length piece.now ≤ PAGE_BYTES
        → IsOk result × (files.new ≡ files.old) × (page.new ≡ page.old ++ piece.now) }
{
    if page.has_room(piece) {
        page.put(piece);
        return Ok(());
    }
    send(files, page)?;
    if page.has_room(piece) {
        page.put(piece);
        return Ok(());
    }
    append_all(files, piece)
}

/// Puts the pieces into the page, one after another, and appends what does not fit. A fault empties the page.
pub fn gather_pieces<F: Files>(
    files: &mut F,
    page: &mut Page,
    pieces: &[&[u8]],
) -> Result<(), FileFault>
    ensures { Gathers result (with_page (F.told files.old) page.old) (with_page (F.told files.new) page.new)
        (joined pieces.now) }
{
    for piece in pieces {
        gather(files, page, piece)?;
    }
    Ok(())
}

/// Appends what was gathered, and empties the page.
pub fn send<F: Files>(files: &mut F, page: &mut Page) -> Result<(), FileFault>
    ensures writes { Writes result (F.told files.old) (F.told files.new) page.old }
    ensures emptied { page.new ≡ [] }
{
    let sent = append_all(files, page.bytes());
    page.clear();
    sent
}
