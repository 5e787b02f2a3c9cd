//! What the conversions make of a text, before OUT is touched.
ghost use Rattle.std.specs.Prelude.{◌≡◌, Ok, IfOk, IfErr};
ghost use Rattle.job_semantics.specs.Input.{input_reading};
ghost use Rattle.blif_text.specs.Refusals as blif;
ghost use Rattle.hier_blif.specs.Refusals as hier;
ghost use Rattle.conversions.specs.Texts.{circuit_reading, flat_reading};

use aiger_text::ands::Ands;
use blif_text::reading::read_blif;
use blif_text::refusal::BlifRefusal;
use hier_blif::reading::read_hier;
use hier_blif::refusal::HierRefusal;
use net_core::net::Net;
use semantics::limits::MOST_INPUT_BYTES;
use std::alloc::Global;

/// The circuit of the net of a text.
pub(crate) fn circuit(alloc: Global, text: &[u8]) -> Result<Ands, BlifRefusal>
    ensures ok { IfOk result (λ circuit. circuit_reading text.now ≡ Ok circuit) }
    ensures err { IfErr result (λ told. blif.Tells told (input_reading text.now)) }
{
    let net = match read_blif(alloc, text, MOST_INPUT_BYTES as u64) {
        Ok(net) => net,
        Err(reason) => return Err(reason),
    };
    match Ands::of_net(alloc, &net) {
        Ok(circuit) => Ok(circuit),
        Err(_) => Err(BlifRefusal::OutOfMemory),
    }
}

/// The flat net of the hierarchy of a text.
pub(crate) fn flat_net(alloc: Global, text: &[u8]) -> Result<Net, HierRefusal>
    ensures ok { IfOk result (λ net. flat_reading text.now ≡ Ok net) }
    ensures err { IfErr result (λ told. hier.Tells told (flat_reading text.now)) }
{
    let hierarchy = match read_hier(alloc, text, MOST_INPUT_BYTES as u64) {
        Ok(hierarchy) => hierarchy,
        Err(reason) => return Err(reason),
    };
    hierarchy.flatten(alloc)
}
