//! A bundle's files, one after another, and its report. Nothing here allocates.
ghost use Rattle.std.specs.Prelude.{[], ◌∷◌, OnOk, OnErr};
ghost use Rattle.outside_semantics.specs.Outside.{Created, CreateFailed};
ghost use Rattle.job_semantics.specs.Endings.{bundle_name};
ghost use Rattle.file_core.specs.Page.{WritesFiles, Puts};
ghost use Rattle.bundle_writing.specs.Value.{file_of, files_of, report_of_bundle};

use crate::bundle::{Bundle, BundleFault};
use crate::report_writing::report;
use crate::stem::Stem;
use crate::vectors_writing::write_vectors;
use blif_writing::writing::write_blif;
use cnf_core::dimacs::write_dimacs;
use cnf_core::lrat::write_lrat;
use file_core::append::{append_all, put_all};
use file_core::fault::FileFault;
use file_core::files::Files;
use file_core::sink::Sink;
use job_semantics::ending::Ending;

/// Creates the file with this ending.
fn create<F: Files>(files: &mut F, stem: &Stem, ending: Ending) -> Result<(), FileFault>
    ensures ok { OnOk result (Created (F.told files.old) (F.told files.new) (bundle_name stem.now ending)) }
    ensures err { OnErr result
        (CreateFailed (F.told files.old) (F.told files.new) (bundle_name stem.now ending)) }
{
    files.create(stem.name(ending))
}

fn write_netlist<F: Files>(b: &Bundle, stem: &Stem, files: &mut F) -> Result<(), FileFault>
    ensures { WritesFiles result (F.told files.old) (F.told files.new)
        (file_of stem.now b.now Ending.Netlist ∷ []) }
{
    create(files, stem, Ending::Netlist)?;
    write_blif(&b.approx, files)
}

fn write_formula<F: Files>(b: &Bundle, stem: &Stem, files: &mut F) -> Result<(), FileFault>
    ensures { WritesFiles result (F.told files.old) (F.told files.new)
        (file_of stem.now b.now Ending.Formula ∷ []) }
{
    create(files, stem, Ending::Formula)?;
    write_dimacs(&b.goal, files)
}

fn write_log<F: Files>(b: &Bundle, stem: &Stem, files: &mut F) -> Result<(), FileFault>
    ensures { WritesFiles result (F.told files.old) (F.told files.new)
        (file_of stem.now b.now Ending.Log ∷ []) }
{
    create(files, stem, Ending::Log)?;
    write_lrat(&b.log, files)
}

fn write_vectors_file<F: Files>(b: &Bundle, stem: &Stem, files: &mut F) -> Result<(), FileFault>
    ensures { WritesFiles result (F.told files.old) (F.told files.new)
        (file_of stem.now b.now Ending.Vectors ∷ []) }
{
    create(files, stem, Ending::Vectors)?;
    write_vectors(b.witness.as_slice(), &b.pool, files)
}

fn write_report<F: Files>(b: &Bundle, stem: &Stem, files: &mut F) -> Result<(), FileFault>
    ensures { WritesFiles result (F.told files.old) (F.told files.new)
        (file_of stem.now b.now Ending.Report ∷ []) }
{
    create(files, stem, Ending::Report)?;
    append_all(files, report(b).as_str().as_bytes())
}

/// Creates and writes the files in their order.
fn write_files<F: Files>(b: &Bundle, stem: &Stem, files: &mut F) -> Result<(), FileFault>
    ensures { WritesFiles result (F.told files.old) (F.told files.new) (files_of stem.now b.now) }
{
    write_netlist(b, stem, files)?;
    write_formula(b, stem, files)?;
    write_log(b, stem, files)?;
    write_vectors_file(b, stem, files)?;
    write_report(b, stem, files)
}

/// Writes the five files of the stem. After a fault the files before the one that failed are whole, and the
/// one that failed is untouched, empty or a first part of its text.
pub fn write_bundle<F: Files>(b: &Bundle, stem: &Stem, files: &mut F) -> Result<(), BundleFault>
    ensures { WritesFiles result (F.told files.old) (F.told files.new) (files_of stem.now b.now) }
{
    match write_files(b, stem, files) {
        Ok(()) => Ok(()),
        Err(FileFault) => Err(BundleFault),
    }
}

/// Puts the report to the sink. After a fault a first part of the report was put.
pub fn put_report<K: Sink>(b: &Bundle, say: &mut K) -> Result<(), FileFault>
    ensures { Puts result (K.told say.old) (K.told say.new) (report_of_bundle b.now) }
{
    put_all(say, report(b).as_str().as_bytes())
}
