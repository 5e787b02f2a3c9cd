//! Whole texts over calls that may take a part.
ghost use Rattle.file_core.specs.Page.{Writes, Puts};

use crate::fault::FileFault;
use crate::files::Files;
use crate::sink::Sink;

/// Appends the whole text to the file that is being written. After a fault a first part of the text was
/// appended.
pub fn append_all<F: Files>(files: &mut F, text: &[u8]) -> Result<(), FileFault>
    ensures { Writes result (F.told files.old) (F.told files.new) text.now }
{
    let mut rest = text;
    while !rest.is_empty() {
        let count = files.append(rest)?;
        rest = &rest[count..];
    }
    Ok(())
}

/// Puts the whole text to the sink. After a fault a first part of the text was put.
pub fn put_all<K: Sink>(say: &mut K, text: &[u8]) -> Result<(), FileFault>
    ensures { Puts result (K.told say.old) (K.told say.new) text.now }
{
    let mut rest = text;
    while !rest.is_empty() {
        let count = say.put(rest)?;
        rest = &rest[count..];
    }
    Ok(())
}
