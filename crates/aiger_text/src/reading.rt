//! AIGER texts are read as nets. Source: the ASCII form of AIGER.
ghost use Rattle.std.specs.Prelude.{◌≡◌, ◌<◌, ◌^◌, Ok, IfOk, IfErr};
ghost use Rattle.aiger_semantics.specs.Reading.{aiger_reading};
ghost use Rattle.aiger_text.specs.Refusals.{Tells};

use crate::circuit_net::net_reading;
use crate::circuit_reading::circuit_reading;
use crate::refusal::AigerRefusal;
use crate::text_lines::text_lines;
use net_core::net::Net;
use std::alloc::Global;

/// The net of a text of at most `limit` bytes. Time and memory grow about in proportion to the text. Each
/// refusal but want of memory is the one that the definition gives; want of memory may come at any point.
pub fn read_aiger(alloc: Global, text: &[u8], limit: u64) -> Result<Net, AigerRefusal>
    requires { limit < 2 ^ 31 }
    ensures ok { IfOk result (λ n. aiger_reading text.now limit ≡ Ok n) }
    ensures err { IfErr result (λ told. Tells told (aiger_reading text.now limit)) }
{
    if text.len() as u64 > limit {
        return Err(AigerRefusal::TextLong);
    }
    let lines = text_lines(alloc, text)?;
    let circuit = circuit_reading(alloc, &lines)?;
    net_reading(alloc, &circuit)
}
