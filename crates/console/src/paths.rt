//! Where files are opened by their paths: what a file may be that a call opens. So the adapter's own calls
//! can be told apart, while the system's say nothing.
ghost use Rattle.std.specs.Prelude.{ℕ, List, ⊤, IfOk, IsErr};
ghost use Rattle.std.specs.declared.fs.options.OpenOptions.{OpenOptions};

use std::fs::OpenOptions;
use std::io::{self, Read, Write};
use std::rt;

/// Opens files by their paths.
pub trait Paths {
    type File: Read + Write + Drop;

    /// What a file may be that is opened so at this path.
    ghost opened: { Self → OpenOptions → List ℕ → Self.File → Type 0 };

    /// Whether a file that is to be opened so at this path may be refused.
    ghost refused: { Self → OpenOptions → List ℕ → Type 0 };

    /// Opens the file at this path, or answers the system's error.
    fn open_at(&self, how: &OpenOptions, path: &str) -> io::Result<Self::File>
        ensures opens { IfOk result (opened self.now how.now path.now) }
        ensures refuses { IsErr result → refused self.now how.now path.now };
}

/// The file system of a runtime. The library's contracts say nothing of what a path names.
#[derive(Drop)]
pub struct SystemPaths<'a, R: rt::Files> {
    runtime: &'a R,
}

impl<'a, R: rt::Files> SystemPaths<'a, R> {
    /// The file system of this runtime.
    pub fn new(runtime: &'a R) -> Self {
        SystemPaths { runtime }
    }
}

impl<R: rt::Files> Paths for SystemPaths<'_, R> {
    type File = R::File;

    ghost opened = { λ _ _ _ _. ⊤ };

    ghost refused = { λ _ _ _. ⊤ };

    fn open_at(&self, how: &OpenOptions, path: &str) -> io::Result<R::File> {
        how.open(self.runtime, path)
    }
}
