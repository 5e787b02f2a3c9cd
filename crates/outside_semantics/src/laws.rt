//! The laws about files: each function's contract is a law.
ghost use Rattle.outside_semantics.specs.Laws.{WrittenFilesLaw};

/// What is held after files were written one after another.
pub fn written_files()
    ensures { WrittenFilesLaw }
{}
