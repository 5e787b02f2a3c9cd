//! Files by their paths, as those of the operating system. They tell the count of their faults, the name that
//! is open and the read turns, and nothing else.
ghost use Rattle.std.specs.Prelude.{◌≡◌, ◌<◌, ◌≤◌, [], None, length, take};
ghost use Rattle.std.specs.Prelude.{IsErr, IsSomeAnd, IfOk, OnOk, OnErr};
ghost use Rattle.std.specs.Str.{IsUtf8};
ghost use Rattle.std.specs.Io.KnownBytes.{Appends, Consumes, IsAtEnd};
ghost use Rattle.outside_semantics.specs.Outside.{Gave, ReadFailed, Wrote, WriteFailed, Opened, OpenFailed};
ghost use Rattle.outside_semantics.specs.Outside.{Created, CreateFailed};
ghost use Rattle.console.specs.Untold.{untold, WhereOpen};
ghost use Rattle.console.specs.Options.{to_read, to_create};

use crate::counted::{fault, read_some, write_some};
use crate::paths::Paths;
use file_core::fault::FileFault;
use file_core::files::Files;
use file_core::turns::count_read;
use history::reads::Reads;
use std::fs::OpenOptions;

/// Real files by path. Nothing is kept in a buffer.
#[derive(Drop)]
pub struct RealFiles<R: Paths + Drop> {
    paths: R,
    reading: Option<R::File>,
    writing: Option<R::File>,
    faults: u64,
    reads: Reads,
}

impl<R: Paths + Drop> RealFiles<R> {
    /// The files at these paths. None is open, and no call has failed.
    pub fn new(paths: R) -> Self
        ensures paths { result.paths ≡ paths }
        ensures faults { result.faults ≡ 0 }
        ensures closed { (result.reading ≡ None) × (result.writing ≡ None) }
        ensures no_turn { (result.reads.opened ≡ None) × (result.reads.turns ≡ []) }
    {
        RealFiles {
            paths,
            reading: None,
            writing: None,
            faults: 0,
            reads: Reads::new(),
        }
    }
}

/// How a file is opened to be read.
pub(crate) fn options_of_open() -> OpenOptions
    ensures { result ≡ to_read }
{
    let mut options = OpenOptions::new();
    options.read(true);
    options
}

/// How a file is opened to be written from its start: it is made, or emptied where it is there.
fn options_of_create() -> OpenOptions
    ensures { result ≡ to_create }
{
    let mut options = OpenOptions::new();
    options.write(true).create(true).truncate(true);
    options
}

impl<R: Paths + Drop> Files for RealFiles<R> {
    ghost told = { λ s. untold s.faults s.reads };

    fn open_file(&mut self, name: &[u8]) -> Result<(), FileFault>
        ensures ok { OnOk result
            (Opened (untold self.old.faults self.old.reads) (untold self.new.faults self.new.reads)
            name.now) }
        ensures err { OnErr result
            (OpenFailed (untold self.old.faults self.old.reads) (untold self.new.faults self.new.reads)
            name.now) }
        ensures opens { OnOk result
            (IsSomeAnd self.new.reading (R.opened self.old.paths to_read name.now)) }
        ensures closes { OnErr result (self.new.reading ≡ None) }
        ensures refuses { IsErr result → IsUtf8 name.now → R.refused self.old.paths to_read name.now }
        ensures apart { (self.new.writing ≡ self.old.writing) × (self.new.paths ≡ self.old.paths) }
    {
        self.reading = None;
        self.reads = self.reads.close();
        let Ok(path) = str::from_utf8(name) else {
            return Err(fault(&mut self.faults));
        };
        match self.paths.open_at(&options_of_open(), path) {
            Ok(file) => {
                self.reading = Some(file);
                self.reads = self.reads.open(name);
                Ok(())
            }
            Err(_) => Err(fault(&mut self.faults)),
        }
    }

    fn read(&mut self, buffer: &mut [u8]) -> Result<usize, FileFault>
        ensures within { IfOk result (λ n. n ≤ length buffer.new) }
        ensures ok { IfOk result
            (λ n. Gave (untold self.old.faults self.old.reads) (untold self.new.faults self.new.reads) n
            buffer.new) }
        ensures err { OnErr result
            (ReadFailed (untold self.old.faults self.old.reads) (untold self.new.faults self.new.reads)) }
        ensures closed { self.old.reading ≡ None → IsErr result }
        ensures apart { (self.new.writing ≡ self.old.writing) × (self.new.paths ≡ self.old.paths) }
        ensures bytes { IfOk result (λ n. WhereOpen self.old.reading self.new.reading
            (λ a b. Consumes (R.File.remaining a) (R.File.remaining b) (take n buffer.new))) }
        ensures end { IfOk result (λ n. n ≡ 0 → 0 < length buffer.new
            → WhereOpen self.old.reading self.new.reading (λ _ b. IsAtEnd (R.File.remaining b))) }
    {
        match &mut self.reading {
            Some(file) => {
                let count = read_some(file, buffer, &mut self.faults)?;
                count_read(&mut self.reads, buffer.len(), count);
                Ok(count)
            }
            None => Err(fault(&mut self.faults)),
        }
    }

    fn create(&mut self, name: &[u8]) -> Result<(), FileFault>
        ensures ok { OnOk result
            (Created (untold self.old.faults self.old.reads) (untold self.new.faults self.new.reads)
            name.now) }
        ensures err { OnErr result
            (CreateFailed (untold self.old.faults self.old.reads) (untold self.new.faults self.new.reads)
            name.now) }
        ensures opens { OnOk result
            (IsSomeAnd self.new.writing (R.opened self.old.paths to_create name.now)) }
        ensures closes { OnErr result (self.new.writing ≡ None) }
        ensures refuses { IsErr result → IsUtf8 name.now → R.refused self.old.paths to_create name.now }
        ensures apart { (self.new.reading ≡ self.old.reading) × (self.new.paths ≡ self.old.paths) }
    {
        self.writing = None;
        let Ok(path) = str::from_utf8(name) else {
            return Err(fault(&mut self.faults));
        };
        match self.paths.open_at(&options_of_create(), path) {
            Ok(file) => {
                self.writing = Some(file);
                Ok(())
            }
            Err(_) => Err(fault(&mut self.faults)),
        }
    }

    fn append(&mut self, piece: &[u8]) -> Result<usize, FileFault>
        ensures within { IfOk result (λ n. n ≤ length piece.now) }
        ensures progress { IfOk result (λ n. 0 < length piece.now → 0 < n) }
        ensures ok { IfOk result
            (λ n. Wrote (untold self.old.faults self.old.reads) (untold self.new.faults self.new.reads)
            (take n piece.now)) }
        ensures err { OnErr result
            (WriteFailed (untold self.old.faults self.old.reads) (untold self.new.faults self.new.reads) []) }
        ensures closed { self.old.writing ≡ None → IsErr result }
        ensures apart { (self.new.reading ≡ self.old.reading) × (self.new.paths ≡ self.old.paths) }
        ensures bytes { IfOk result (λ n. WhereOpen self.old.writing self.new.writing
            (λ a b. Appends (R.File.contents a) (R.File.contents b) (take n piece.now))) }
    {
        match &mut self.writing {
            Some(file) => write_some(file, piece, &mut self.faults),
            None => Err(fault(&mut self.faults)),
        }
    }
}
