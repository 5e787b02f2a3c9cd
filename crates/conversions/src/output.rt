//! OUT is created, and its text is appended. Nothing here takes memory.
ghost use Rattle.std.specs.Prelude.{◌≡◌, [], ◌∷◌};
ghost use Rattle.semantics.specs.Blif.{blif_text};
ghost use Rattle.aiger_semantics.specs.Text.{aiger_text};
ghost use Rattle.job_semantics.specs.Conversion.{output_file};
ghost use Rattle.file_core.specs.Page.{WritesFiles};
ghost use Rattle.conversions.specs.Answers.{answer_of_writing};

use aiger_text::ands::Ands;
use aiger_text::writing::write_aiger;
use blif_writing::writing::write_blif;
use file_core::fault::FileFault;
use file_core::files::Files;
use job_answers::status::Status;
use net_core::net::Net;

/// Makes the file with the text of a circuit.
pub fn write_circuit<F: Files>(
    circuit: &Ands,
    output: &[u8],
    files: &mut F,
) -> Result<(), FileFault>
    ensures { WritesFiles result (F.told files.old) (F.told files.new)
        (output_file output.now (aiger_text circuit.now) ∷ []) }
{
    files.create(output)?;
    write_aiger(circuit, files)
}

/// Makes the file with the text of a net.
pub fn write_netlist<F: Files>(net: &Net, output: &[u8], files: &mut F) -> Result<(), FileFault>
    ensures { WritesFiles result (F.told files.old) (F.told files.new)
        (output_file output.now (blif_text net.now) ∷ []) }
{
    files.create(output)?;
    write_blif(net, files)
}

/// The answer for what the writing of OUT came to.
pub fn answer_of_writing(written: Result<(), FileFault>) -> Status
    ensures { result ≡ answer_of_writing written }
{
    match written {
        Ok(()) => Status::Done,
        Err(FileFault) => Status::WriteFault,
    }
}
