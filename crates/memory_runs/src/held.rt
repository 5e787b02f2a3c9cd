//! Words and files in memory: how they are made, and what is held.
ghost use Rattle.std.specs.Prelude.{◌≡◌, ◌↔◌, IsTrue, MatchOption, ⊤, [], ◌∷◌, ◌++◌, length, take, codes};
ghost use Rattle.std.specs.Prelude.{option_map, IfOk, OnOk, OnErr};
ghost use Rattle.std.specs.FinMap.{get};
ghost use Rattle.outside_semantics.specs.Outside.{bytes_of};
ghost use Rattle.memory_runs.specs.Words.{words_of};

use file_core::lists::FileList;
use file_core::memory_files::MemFiles;
use file_core::word::Word;
use std::alloc::{AllocError, Global};

/// The words of a line, which stand between single blanks; an empty line has none.
pub fn words(alloc: Global, line: &[u8]) -> Result<Vec<Word>, AllocError>
    ensures { IfOk result (λ words. words.items ≡ words_of line.now) }
{
    let mut words = Vec::new(alloc);
    if line.is_empty() {
        return Ok(words);
    }
    for word in line.split(|byte| *byte == b' ') {
        words.push(Word::new(alloc, word)?)?;
    }
    Ok(words)
}

/// The text of two parts, one after the other.
pub fn joined(alloc: Global, first: &[u8], second: &[u8]) -> Result<Vec<u8>, AllocError>
    ensures { IfOk result (λ text. text.items ≡ first.now ++ second.now) }
{
    let mut text = Vec::from_slice(alloc, first)?;
    text.extend_from_slice(second)?;
    Ok(text)
}

/// Adds a file to the end of the list. Of two files with one name the first counts.
pub fn add_file(
    alloc: Global,
    files: &mut FileList,
    name: &[u8],
    text: &[u8],
) -> Result<(), AllocError>
    ensures ok { OnOk result (files.new ≡ files.old ++ (name.now, text.now) ∷ []) }
    ensures err { OnErr result (files.new ≡ files.old) }
{
    files.push((Word::new(alloc, name)?, Word::new(alloc, text)?))
}

/// Files that hold `ha.blif` alone, with this text.
pub fn holding(alloc: Global, text: &[u8]) -> Result<FileList, AllocError>
    ensures { IfOk result (λ files. files ≡ (codes "ha.blif", text.now) ∷ []) }
{
    let mut files = FileList::new(alloc);
    add_file(alloc, &mut files, b"ha.blif", text)?;
    Ok(files)
}

/// The bytes of a file; a file that is not held has none.
pub fn bytes_of<'a>(files: &'a MemFiles, name: &[u8]) -> &'a [u8]
    ensures { result.now ≡ bytes_of files.now.held name.now }
{
    files.bytes(name).unwrap_or(b"")
}

/// Whether the name is held with these bytes; for None, whether the name is not held.
pub fn holds(files: &MemFiles, name: &[u8], wanted: Option<&[u8]>) -> bool
    ensures { IsTrue result ↔ (get files.now.held name.now ≡ option_map (λ text. text.now) wanted.entry) }
{
    match (files.bytes(name), wanted) {
        (Some(bytes), Some(wanted)) => bytes == wanted,
        (None, None) => true,
        _ => false,
    }
}

/// Whether the name is not held, or is held with a first part of the text.
pub fn holds_at_most(files: &MemFiles, name: &[u8], text: &[u8]) -> bool
    ensures { IsTrue result ↔ MatchOption (get files.now.held name.now) ⊤
        (λ bytes. take (length bytes) text.now ≡ bytes) }
{
    match files.bytes(name) {
        Some(bytes) => bytes.len() <= text.len() && bytes == &text[..bytes.len()],
        None => true,
    }
}

/// Whether the name is held with a text that begins with these bytes.
pub fn begins(files: &MemFiles, name: &[u8], front: &[u8]) -> bool
    ensures { IsTrue result ↔ MatchOption (get files.now.held name.now) ⊥
        (λ bytes. take (length front.now) bytes ≡ front.now) }
{
    match files.bytes(name) {
        Some(bytes) => front.len() <= bytes.len() && front == &bytes[..front.len()],
        None => false,
    }
}
