//! A formula is written as its DIMACS text; nothing is allocated.
ghost use Rattle.file_core.specs.Page.{Writes};
ghost use Rattle.proof_semantics.specs.Formula.{dimacs_text};

use crate::cnf::Cnf;
use crate::dimacs_text::DimacsText;
use crate::token_text::write_text;
use file_core::fault::FileFault;
use file_core::files::Files;

/// Appends the formula's DIMACS text to the file that is being written. After a fault a first part of this
/// text was appended.
pub fn write_dimacs<F: Files>(cnf: &Cnf, files: &mut F) -> Result<(), FileFault>
    ensures { Writes result (F.told files.old) (F.told files.new) (dimacs_text cnf.now) }
{
    write_text(&mut DimacsText::new(cnf), files)
}
