//! The bundle of the half adder within 1, whole or with one file changed.
ghost use Rattle.std.specs.Prelude.{◌≡◌, ◌↔◌, IsTrue, IfOk};
ghost use Rattle.std.specs.List.{All};
ghost use Rattle.std.specs.FinMap.{get};
ghost use Rattle.memory_runs.specs.Bundles.{changed_bundle};

use crate::half_adder::{HALF_ADDER, NAMES, SYNTHESIS};
use crate::held::{add_file, bytes_of, holds};
use crate::runs::run_on;
use file_core::lists::FileList;
use file_core::memory_files::MemFiles;
use std::alloc::{AllocError, Global};

/// The half adder and its bundle.
pub fn whole_bundle(alloc: Global) -> Result<MemFiles, AllocError> {
    Ok(run_on(alloc, SYNTHESIS, HALF_ADDER)?.files)
}

/// The half adder and its bundle, where one file has another text.
pub fn with_file(
    alloc: Global,
    whole: &MemFiles,
    name: &[u8],
    text: &[u8],
) -> Result<FileList, AllocError>
    ensures { IfOk result (λ files. files ≡ changed_bundle whole.now.held name.now text.now) }
{
    let mut files = FileList::new(alloc);
    add_file(alloc, &mut files, name, text)?;
    for kept in NAMES {
        add_file(alloc, &mut files, kept, bytes_of(whole, kept))?;
    }
    add_file(alloc, &mut files, b"ha.blif", HALF_ADDER)?;
    Ok(files)
}

/// Whether the files hold each of the names as the whole bundle does.
pub fn are_whole(files: &MemFiles, names: &[&[u8]], whole: &MemFiles) -> bool
    ensures { IsTrue result ↔ All (λ name. get files.now.held name.now ≡ get whole.now.held name.now)
        names.now }
{
    for name in names {
        if !holds(files, name, whole.bytes(name)) {
            return false;
        }
    }
    true
}
