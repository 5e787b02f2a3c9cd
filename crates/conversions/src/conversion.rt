//! The conversions: IN is read, what it is turned into is made, and then OUT is written.
ghost use Rattle.outside_semantics.specs.Outside.{SinkTold};
ghost use Rattle.job_answers.specs.OnFiles.{on_files};
ghost use Rattle.job_answers.specs.Refused.{TellsBlif, TellsHier, TellsAiger};
ghost use Rattle.conversions.specs.Answers.{ConversionAnswer};
ghost use Rattle.conversions.specs.Texts.{flat_text, aag_text, netlist_text};

use crate::input::read_front;
use crate::making::{circuit, flat_net};
use crate::output::{answer_of_writing, write_circuit, write_netlist};
use aiger_text::reading::read_aiger;
use file_core::files::Files;
use job_answers::refused::{aiger_answer, blif_answer, hier_answer};
use job_answers::status::Status;
use semantics::limits::MOST_INPUT_BYTES;
use std::alloc::Global;

/// The text of a hierarchy of models is turned into that of its flat net.
pub fn flat<F: Files>(alloc: Global, input: &[u8], output: &[u8], files: &mut F) -> Status
    ensures { (said : SinkTold) → ConversionAnswer
        flat_text
        TellsHier
        input.now
        output.now
        (on_files (F.told files.old) (F.told files.new) said)
        result }
{
    let text = match read_front(alloc, files, input) {
        Ok(text) => text,
        Err(answer) => return answer,
    };
    match flat_net(alloc, text.bytes()) {
        Ok(net) => answer_of_writing(write_netlist(&net, output, files)),
        Err(reason) => hier_answer(reason),
    }
}

/// The text of a net is turned into that of its AND circuit.
pub fn aag<F: Files>(alloc: Global, input: &[u8], output: &[u8], files: &mut F) -> Status
    ensures { (said : SinkTold) → ConversionAnswer
        aag_text
        TellsBlif
        input.now
        output.now
        (on_files (F.told files.old) (F.told files.new) said)
        result }
{
    let text = match read_front(alloc, files, input) {
        Ok(text) => text,
        Err(answer) => return answer,
    };
    match circuit(alloc, text.bytes()) {
        Ok(circuit) => answer_of_writing(write_circuit(&circuit, output, files)),
        Err(reason) => blif_answer(reason),
    }
}

/// The text of an AND circuit is turned into that of its net.
pub fn blif<F: Files>(alloc: Global, input: &[u8], output: &[u8], files: &mut F) -> Status
    ensures { (said : SinkTold) → ConversionAnswer
        netlist_text
        TellsAiger
        input.now
        output.now
        (on_files (F.told files.old) (F.told files.new) said)
        result }
{
    let text = match read_front(alloc, files, input) {
        Ok(text) => text,
        Err(answer) => return answer,
    };
    match read_aiger(alloc, text.bytes(), MOST_INPUT_BYTES as u64) {
        Ok(net) => answer_of_writing(write_netlist(&net, output, files)),
        Err(reason) => aiger_answer(reason),
    }
}
