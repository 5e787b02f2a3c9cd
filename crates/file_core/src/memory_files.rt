//! Files in memory, which can be made to fail and to work in small chunks.
ghost use Rattle.std.specs.Prelude.{◌≡◌, ◌⊎◌, ◌-◌, ◌<◌, ◌≤◌, ◌↔◌, [], Some, None, min, length, take};
ghost use Rattle.std.specs.Prelude.{option_map, IsTrue, IsFalse, IsSome, IsOk, IsErr, IfOk, OnOk, OnErr};
ghost use Rattle.std.specs.FinMap.{get, contains_key};
ghost use Rattle.outside_semantics.specs.Outside.{Opened, OpenFailed, Gave, ReadFailed, Created};
ghost use Rattle.outside_semantics.specs.Outside.{CreateFailed, Wrote, WriteFailed};
ghost use Rattle.file_core.specs.Memory.{files_at_first, memory_told, fails_next, faulted, opened};
ghost use Rattle.file_core.specs.Memory.{not_opened, left_of, read_on, created, not_created, wrote};

use crate::calls::Calls;
use crate::cursor::{Cursor, copy_next};
use crate::fault::FileFault;
use crate::files::Files;
use crate::lists::{CallList, FileList};
use crate::turns::count_read;
use history::reads::Reads;
use std::marker::Model;

/// Files in memory. A call fails where its number is listed, where a file to be opened is missing, and where
/// nothing is open for it. `create` of a name that is not held and `append` fail for want of memory too.
#[derive(Drop)]
pub struct MemFiles {
    files: FileList,
    reading: Option<Cursor>,
    writing: Option<usize>,
    reads: Reads,
    calls: Calls,
    chunk: usize,
}

impl Model for MemFiles {
    ghost use Rattle.file_core.specs.Memory.{MemoryValue, memory_code};

    ghost Value = { MemoryValue };

    ghost coded = { memory_code };

    ghost use Rattle.file_core.specs.Cursor.{memory_value, IsMemory};

    ghost view = { λ m. memory_value m.files m.reading m.writing m.reads m.calls m.chunk };

    ghost invariant = { λ m. IsMemory m.files m.reading m.writing m.chunk };
}

impl MemFiles {
    /// These files, of which none is open, where the calls with these numbers fail and a call reads or
    /// appends at most `chunk` bytes.
    pub fn new(files: FileList, failing: CallList, chunk: usize) -> MemFiles
        requires { 0 < chunk }
        ensures { result ≡ files_at_first files failing chunk }
    {
        MemFiles {
            files,
            reading: None,
            writing: None,
            reads: Reads::new(),
            calls: Calls {
                calls: 0,
                faults: 0,
                failing,
            },
            chunk,
        }
    }

    /// The bytes of the file with this name, where it is held.
    pub fn bytes(&self, name: &[u8]) -> Option<&[u8]>
        ensures { option_map (λ r. r.now) result ≡ get self.now.held name.now }
    {
        let file = self.files.find(name)?;
        Some(self.files.bytes_at(file))
    }
}

impl Files for MemFiles {
    ghost told = { memory_told };

    fn open_file(&mut self, name: &[u8]) -> Result<(), FileFault>
        ensures ok { OnOk result
            (Opened (memory_told self.old) (memory_told self.new) name.now) }
        ensures err { OnErr result
            (OpenFailed (memory_told self.old) (memory_told self.new) name.now) }
        ensures opens { IsOk result
            ↔ (IsFalse (fails_next self.old) × IsTrue (contains_key self.old.held name.now)) }
        ensures after_ok { OnOk result (self.new ≡ opened self.old name.now) }
        ensures after_err { OnErr result (self.new ≡ not_opened self.old) }
    {
        self.reading = None;
        self.reads = self.reads.close();
        self.calls.count()?;
        match self.files.find(name) {
            Some(file) => {
                self.reading = Some(Cursor { file, at: 0 });
                self.reads = self.reads.open(name);
                Ok(())
            }
            None => Err(self.calls.fault()),
        }
    }

    fn read(&mut self, buffer: &mut [u8]) -> Result<usize, FileFault>
        ensures within { IfOk result (λ n. n ≤ length buffer.new) }
        ensures ok { IfOk result
            (λ n. Gave (memory_told self.old) (memory_told self.new) n buffer.new) }
        ensures err { OnErr result (ReadFailed (memory_told self.old) (memory_told self.new)) }
        ensures reads { IsOk result ↔ (IsFalse (fails_next self.old) × IsSome self.old.reading) }
        ensures count { IfOk result
            (λ n. n
            ≡ min
            (min (length buffer.old) self.old.chunk)
            (left_of self.old.held self.old.reading)) }
        ensures after_ok { IfOk result (λ n. self.new ≡ read_on self.old (length buffer.old) n) }
        ensures after_err { OnErr result (self.new ≡ faulted self.old) }
    {
        self.calls.count()?;
        match self.reading {
            Some(cursor) => {
                let content = self.files.bytes_at(cursor.file);
                let count = copy_next(content, cursor.at, self.chunk, buffer);
                count_read(&mut self.reads, buffer.len(), count);
                self.reading = Some(Cursor {
                    file: cursor.file,
                    at: cursor.at + count,
                });
                Ok(count)
            }
            None => Err(self.calls.fault()),
        }
    }

    fn create(&mut self, name: &[u8]) -> Result<(), FileFault>
        ensures ok { OnOk result
            (Created (memory_told self.old) (memory_told self.new) name.now) }
        ensures err { OnErr result
            (CreateFailed (memory_told self.old) (memory_told self.new) name.now) }
        ensures listed { IsTrue (fails_next self.old) → IsErr result }
        ensures refused { IsErr result
            → IsTrue (fails_next self.old) ⊎ IsFalse (contains_key self.old.held name.now) }
        ensures after_ok { OnOk result (self.new ≡ created self.old name.now) }
        ensures after_err { OnErr result (self.new ≡ not_created self.old) }
    {
        self.writing = None;
        self.calls.count()?;
        match self.files.make_empty(name) {
            Ok(file) => {
                self.writing = Some(file);
                Ok(())
            }
            Err(_) => Err(self.calls.fault()),
        }
    }

    fn append(&mut self, piece: &[u8]) -> Result<usize, FileFault>
        ensures within { IfOk result (λ n. n ≤ length piece.now) }
        ensures progress { IfOk result (λ n. 0 < length piece.now → 0 < n) }
        ensures ok { IfOk result
            (λ n. Wrote (memory_told self.old) (memory_told self.new) (take n piece.now)) }
        ensures err { OnErr result
            (WriteFailed (memory_told self.old) (memory_told self.new) []) }
        ensures listed { IsTrue (fails_next self.old) → IsErr result }
        ensures closed { self.old.writing ≡ None → IsErr result }
        ensures nothing { piece.now ≡ [] → IsErr result
            → IsTrue (fails_next self.old) ⊎ (self.old.writing ≡ None) }
        ensures count { IfOk result (λ n. n ≡ min (length piece.now) self.old.chunk) }
        ensures after_ok { IfOk result (λ n. self.new ≡ wrote self.old (take n piece.now)) }
        ensures after_err { OnErr result (self.new ≡ faulted self.old) }
    {
        self.calls.count()?;
        let Some(file) = self.writing else {
            return Err(self.calls.fault());
        };
        let count = piece.len().min(self.chunk);
        match self.files.extend_at(file, &piece[..count]) {
            Ok(()) => Ok(count),
            Err(_) => Err(self.calls.fault()),
        }
    }
}
