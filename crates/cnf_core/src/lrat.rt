//! A log is written as its LRAT text; nothing is allocated.
ghost use Rattle.file_core.specs.Page.{Writes};
ghost use Rattle.proof_semantics.specs.Lrat.{lrat_text};

use crate::log::Log;
use crate::lrat_text::LratText;
use crate::token_text::write_text;
use file_core::fault::FileFault;
use file_core::files::Files;

/// Appends the log's LRAT text to the file that is being written. After a fault a first part of this text was
/// appended.
pub fn write_lrat<F: Files>(log: &Log, files: &mut F) -> Result<(), FileFault>
    ensures { Writes result (F.told files.old) (F.told files.new) (lrat_text log.now) }
{
    write_text(&mut LratText::new(log.as_slice()), files)
}
