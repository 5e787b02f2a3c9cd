//! Files that never fail and keep nothing that is written.
ghost use Rattle.std.specs.Prelude.{◌≡◌, ◌<◌, ◌≤◌, [], None, true, false, length, min, take, IsTrue, IsFalse};
ghost use Rattle.std.specs.Prelude.{IsOk, IfOk, OnOk, OnErr};
ghost use Rattle.std.specs.FinMap.{contains_key};
ghost use Rattle.outside_semantics.specs.Outside.{Opened, OpenFailed, Gave, ReadFailed, Created};
ghost use Rattle.outside_semantics.specs.Outside.{CreateFailed, Wrote, WriteFailed};
ghost use Rattle.file_core.specs.Entries.{held_in};
ghost use Rattle.file_core.specs.Memory.{left_of};
ghost use Rattle.file_core.specs.Sure.{sure_at_first, sure_told, found, not_found, went_on, IsNextOf};

use crate::cursor::{Cursor, copy_next};
use crate::fault::FileFault;
use crate::files::Files;
use crate::lists::FileList;
use crate::turns::count_read;
use history::reads::Reads;
use std::marker::Model;

/// The given files, which are told until a file is created or a name is opened that was not given; from then
/// on nothing is told. Such a name is read as an empty file, and what is written is forgotten.
#[derive(Drop)]
pub struct SureFiles {
    files: FileList,
    told: bool,
    reading: Option<Cursor>,
    reads: Reads,
}

impl Model for SureFiles {
    ghost use Rattle.std.specs.Prelude.{IfSome};
    ghost use Rattle.file_core.specs.Sure.{SureValue, sure_code};

    ghost Value = { SureValue };

    ghost coded = { sure_code };

    ghost use Rattle.file_core.specs.Entries.{held_in, IsCounted};
    ghost use Rattle.file_core.specs.Cursor.{place_of};

    ghost view = { λ s. record {
      given = held_in s.files;
      told = s.told;
      reading = place_of s.files s.reading;
      opened = s.reads.opened;
      turns = s.reads.turns;
    } };

    ghost invariant = { λ s. IfSome s.reading (λ c. IsCounted s.files c.file) };
}

impl SureFiles {
    /// These files, which are told.
    pub fn new(files: FileList) -> SureFiles
        ensures { result ≡ sure_at_first files }
    {
        SureFiles {
            files,
            told: true,
            reading: None,
            reads: Reads::new(),
        }
    }
}

impl Files for SureFiles {
    ghost told = { sure_told };

    fn open_file(&mut self, name: &[u8]) -> Result<(), FileFault>
        ensures ok { OnOk result (Opened (sure_told self.old) (sure_told self.new) name.now) }
        ensures err { OnErr result
            (OpenFailed (sure_told self.old) (sure_told self.new) name.now) }
        ensures sure { IsOk result }
        ensures given { IsTrue (contains_key self.old.given name.now)
            → self.new ≡ found self.old name.now }
        ensures not_given { IsFalse (contains_key self.old.given name.now)
            → self.new ≡ not_found self.old name.now }
    {
        self.reads = self.reads.open(name);
        match self.files.find(name) {
            Some(file) => self.reading = Some(Cursor { file, at: 0 }),
            None => {
                self.reading = None;
                self.told = false;
            }
        }
        Ok(())
    }

    fn read(&mut self, buffer: &mut [u8]) -> Result<usize, FileFault>
        ensures within { IfOk result (λ n. n ≤ length buffer.new) }
        ensures ok { IfOk result
            (λ n. Gave (sure_told self.old) (sure_told self.new) n buffer.new) }
        ensures err { OnErr result (ReadFailed (sure_told self.old) (sure_told self.new)) }
        ensures sure { IsOk result }
        ensures count { IfOk result
            (λ n. n ≡ min (length buffer.old) (left_of self.old.given self.old.reading)) }
        ensures bytes { IfOk result (λ n. IsNextOf self.old n buffer.new) }
        ensures place { IfOk result (λ n. self.new ≡ went_on self.old (length buffer.old) n) }
    {
        match self.reading {
            Some(cursor) => {
                let limit = buffer.len();
                let content = self.files.bytes_at(cursor.file);
                let count = copy_next(content, cursor.at, limit, buffer);
                count_read(&mut self.reads, limit, count);
                self.reading = Some(Cursor {
                    file: cursor.file,
                    at: cursor.at + count,
                });
                Ok(count)
            }
            None => Ok(0),
        }
    }

    fn create(&mut self, name: &[u8]) -> Result<(), FileFault>
        ensures ok { OnOk result (Created (sure_told self.old) (sure_told self.new) name.now) }
        ensures err { OnErr result
            (CreateFailed (sure_told self.old) (sure_told self.new) name.now) }
        ensures sure { IsOk result }
        ensures untold { self.new ≡ record self.old { told = false } }
    {
        self.told = false;
        Ok(())
    }

    fn append(&mut self, piece: &[u8]) -> Result<usize, FileFault>
        ensures within { IfOk result (λ n. n ≤ length piece.now) }
        ensures progress { IfOk result (λ n. 0 < length piece.now → 0 < n) }
        ensures ok { IfOk result
            (λ n. Wrote (sure_told self.old) (sure_told self.new) (take n piece.now)) }
        ensures err { OnErr result (WriteFailed (sure_told self.old) (sure_told self.new) []) }
        ensures sure { IsOk result }
        ensures whole { IfOk result (λ n. n ≡ length piece.now) }
        ensures unchanged { self.new ≡ self.old }
    {
        Ok(piece.len())
    }
}
