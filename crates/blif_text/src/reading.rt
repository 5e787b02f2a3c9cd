//! Texts are read as their nets. Source: BLIF, in the profile of `blif_semantics`.
ghost use Rattle.std.specs.Prelude.{◌≡◌, ◌<◌, ◌^◌, Ok, IfOk, IfErr, length};
ghost use Rattle.blif_semantics.specs.Reading.{names_of, single, blif_reading};
ghost use Rattle.blif_semantics.specs.Named.{IsNamedNet};
ghost use Rattle.blif_text.specs.KeptLines.{refused_for_rows};
ghost use Rattle.blif_text.specs.Refusals.{Tells};

use crate::kept_lines::kept_lines;
use crate::named_net::{NamedNet, named_net, without_rows};
use crate::numbering::net_of;
use crate::refusal::BlifRefusal;
use net_core::net::Net;
use semantics::which::Which;
use std::alloc::Global;

/// The refusal of a net that has too many rows, by the net without its rows: no refusal before that of the
/// rows depends on them.
fn refusal_for_rows(alloc: Global, named: NamedNet) -> BlifRefusal
    requires named { IsNamedNet named }
    requires few { length (names_of named) < 2 ^ 31 }
    ensures { Tells result (refused_for_rows (single named.entry)) }
{
    match net_of(alloc, named) {
        Ok(_) => BlifRefusal::Limit { which: Which::Rows },
        Err(refusal) => refusal,
    }
}

/// The net of a text of at most `limit` bytes. Time and memory grow about in proportion to the text, but rows
/// past the limit of a net take no memory. Each refusal but want of memory is the one that the definition
/// gives; want of memory may come at any point.
pub fn read_blif(alloc: Global, text: &[u8], limit: u64) -> Result<Net, BlifRefusal>
    requires { limit < 2 ^ 31 }
    ensures ok { IfOk result (λ n. blif_reading text.now limit ≡ Ok n) }
    ensures err { IfErr result (λ told. Tells told (blif_reading text.now limit)) }
{
    if text.len() as u64 > limit {
        return Err(BlifRefusal::TextLong);
    }
    let kept = kept_lines(alloc, text)?;
    let named = named_net(alloc, kept.lines())?;
    if kept.has_many_rows() {
        let bare = without_rows(alloc, named)?;
        return Err(refusal_for_rows(alloc, bare));
    }
    net_of(alloc, named)
}
