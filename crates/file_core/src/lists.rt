//! Lists that say what files in memory hold, and which calls on them fail.
ghost use Rattle.std.specs.Prelude.{◌≡◌, ◌+◌, ◌<◌, ℕ, List, [], ◌∷◌, ◌++◌, length, slice_set, MatchOption};
ghost use Rattle.std.specs.Prelude.{IsOk, IsErr, IfOk, OnOk, OnErr};
ghost use Rattle.file_core.specs.Calls.{is_listed};
ghost use Rattle.file_core.specs.Entries.{LacksName, IsFirstAt, IsCounted, SetsFile, name_at, bytes_at};

use crate::word::Word;
use std::alloc::{AllocError, Global};
use std::marker::Model;

/// Files by name. Of two files with the same name the first counts.
#[derive(Debug, Drop)]
pub struct FileList {
    items: Vec<(Word, Word)>,
}

impl Model for FileList {
    ghost Value = { List (List ℕ × List ℕ) };

    ghost view = { λ l. l.items.items };
}

impl FileList {
    /// No files. The call takes no memory.
    pub fn new(alloc: Global) -> Self
        ensures { result ≡ [] }
    {
        FileList {
            items: Vec::new(alloc),
        }
    }

    /// Adds a name and its text at the end. A refusal leaves the list as it was.
    pub fn push(&mut self, item: (Word, Word)) -> Result<(), AllocError>
        ensures ok { OnOk result (self.new ≡ self.old ++ item ∷ []) }
        ensures err { OnErr result (self.new ≡ self.old) }
    {
        self.items.push(item)?;
        Ok(())
    }

    /// The place of the first file with this name.
    pub(crate) fn find(&self, name: &[u8]) -> Option<usize>
        ensures { MatchOption result (LacksName self.now name.now) (IsFirstAt self.now name.now) }
    {
        find_name(&self.items, name)
    }

    /// The bytes of the file at this place.
    pub(crate) fn bytes_at(&self, place: usize) -> &[u8]
        requires { place < length self.now }
        ensures { result.now ≡ bytes_at self.now place }
    {
        self.items[place].1.bytes()
    }

    /// Makes the file with this name empty, and returns its place.
    pub(crate) fn make_empty(&mut self, name: &[u8]) -> Result<usize, AllocError>
        ensures ok { IfOk result (SetsFile self.old self.new name.now []) }
        ensures refused { IsErr result → LacksName self.old name.now }
        ensures err { OnErr result (self.new ≡ self.old) }
    {
        match find_name(&self.items, name) {
            Some(place) => {
                empty_at(&mut self.items, place);
                Ok(place)
            }
            None => {
                let alloc = *self.items.allocator();
                let place = self.items.len();
                self.items
                    .push((Word::new(alloc, name)?, Word::empty(alloc)))?;
                Ok(place)
            }
        }
    }

    /// Adds the piece to the file at this place.
    pub(crate) fn extend_at(&mut self, place: usize, piece: &[u8]) -> Result<(), AllocError>
        requires { IsCounted self.old place }
        ensures nothing { piece.now ≡ [] → IsOk result }
        ensures ok { OnOk result
            (SetsFile
            self.old
            self.new
            (name_at self.old place)
            (bytes_at self.old place ++ piece.now)
            place) }
        ensures err { OnErr result (self.new ≡ self.old) }
    {
        extend_at(&mut self.items, place, piece)
    }
}

fn find_name(items: &[(Word, Word)], name: &[u8]) -> Option<usize>
    ensures { MatchOption result (LacksName items.now name.now) (IsFirstAt items.now name.now) }
{
    for (place, item) in items.iter().enumerate() {
        if item.0.bytes() == name {
            return Some(place);
        }
    }
    None
}

fn empty_at(items: &mut [(Word, Word)], place: usize)
    requires { place < length items.old }
    ensures { items.new ≡ slice_set items.old place (name_at items.old place, []) }
{
    let item = &mut items[place];
    item.1.clear();
}

fn extend_at(items: &mut [(Word, Word)], place: usize, piece: &[u8]) -> Result<(), AllocError>
    requires { place < length items.old }
    ensures nothing { piece.now ≡ [] → IsOk result }
    ensures ok { OnOk result
        (items.new
        ≡ slice_set
        items.old
        place
        (name_at items.old place, bytes_at items.old place ++ piece.now)) }
    ensures err { OnErr result (items.new ≡ items.old) }
{
    let item = &mut items[place];
    item.1.extend(piece)
}

/// The numbers of calls that are to fail, counted from 1.
#[derive(Debug, Drop)]
pub struct CallList {
    items: Vec<u64>,
}

impl Model for CallList {
    ghost Value = { List ℕ };

    ghost view = { λ l. l.items.items };
}

impl CallList {
    /// No calls. The call takes no memory.
    pub fn new(alloc: Global) -> Self
        ensures { result ≡ [] }
    {
        CallList {
            items: Vec::new(alloc),
        }
    }

    /// Adds the number of a call at the end. A refusal leaves the list as it was.
    pub fn push(&mut self, item: u64) -> Result<(), AllocError>
        ensures ok { OnOk result (self.new ≡ self.old ++ item ∷ []) }
        ensures err { OnErr result (self.new ≡ self.old) }
    {
        self.items.push(item)?;
        Ok(())
    }

    /// Whether the call with the number `calls` + 1 is listed.
    pub(crate) fn lists_next(&self, calls: u64) -> bool
        ensures { result ≡ is_listed self.now (calls + 1) }
    {
        for number in &self.items {
            if *number > calls && *number - calls == 1 {
                return true;
            }
        }
        false
    }
}
