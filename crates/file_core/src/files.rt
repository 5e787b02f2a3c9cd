//! A set of files, by what they tell. Real files tell nothing but their count of faults.
ghost use Rattle.std.specs.Prelude.{◌≤◌, ◌<◌, [], length, take, IfOk, OnOk, OnErr};
ghost use Rattle.outside_semantics.specs.Outside.{FilesTold, Opened, OpenFailed, Gave, ReadFailed, Created};
ghost use Rattle.outside_semantics.specs.Outside.{CreateFailed, Wrote, WriteFailed};

use crate::fault::FileFault;

/// Files by name. One file can be open for reading, and one for writing.
pub trait Files {
    /// What the files tell: which files are held, what is open, the count of faults, and where no fault can
    /// come.
    ghost told: { Self → FilesTold };

    /// Opens this file, to be read from its first byte on.
    fn open_file(&mut self, name: &[u8]) -> Result<(), FileFault>
        ensures ok { OnOk result (Opened (told self.old) (told self.new) name.now) }
        ensures err { OnErr result (OpenFailed (told self.old) (told self.new) name.now) };

    /// Puts the next bytes of the open file at the front of the buffer, and returns their number.
    fn read(&mut self, buffer: &mut [u8]) -> Result<usize, FileFault>
        ensures within { IfOk result (λ n. n ≤ length buffer.new) }
        ensures ok { IfOk result (λ n. Gave (told self.old) (told self.new) n buffer.new) }
        ensures err { OnErr result (ReadFailed (told self.old) (told self.new)) };

    /// Makes this file, empty, in the place of what it held; from now on it is the file that is written.
    fn create(&mut self, name: &[u8]) -> Result<(), FileFault>
        ensures ok { OnOk result (Created (told self.old) (told self.new) name.now) }
        ensures err { OnErr result (CreateFailed (told self.old) (told self.new) name.now) };

    /// Adds the first bytes of the piece to the file that is being written, and returns their number.
    fn append(&mut self, piece: &[u8]) -> Result<usize, FileFault>
        ensures within { IfOk result (λ n. n ≤ length piece.now) }
        ensures progress { IfOk result (λ n. 0 < length piece.now → 0 < n) }
        ensures ok { IfOk result (λ n. Wrote (told self.old) (told self.new) (take n piece.now)) }
        ensures err { OnErr result (WriteFailed (told self.old) (told self.new) []) };
}
