//! Texts of several models are read as hierarchies. Source: BLIF's `.model` and `.subckt`.
ghost use Rattle.std.specs.Prelude.{◌≡◌, ◌<◌, ◌^◌, Ok, None, IfOk, IfErr, OnOk};
ghost use Rattle.hierarchy_semantics.specs.Reading.{hier_reading};
ghost use Rattle.hier_blif.specs.Refusals.{Tells, TellsOne};
ghost use Rattle.hier_blif.specs.Tested.{lines_refusal};

use crate::hier::Hier;
use crate::judging::judge;
use crate::refusal::HierRefusal;
use crate::refusing::refuse;
use blif_text::line_list::{LogLine, split_lines};
use blif_text::refusal::BlifRefusal;
use hier_parts::models::hierarchy_of;
use hier_parts::statements::statements;
use std::alloc::Global;

/// Succeeds where no line is wrong and the models are a hierarchy; else returns the first refusal.
fn test_lines(alloc: Global, lines: &[LogLine]) -> Result<(), HierRefusal>
    ensures ok { OnOk result (lines_refusal lines.now ≡ None) }
    ensures err { IfErr result (λ told. TellsOne told (lines_refusal lines.now)) }
{
    let statements = statements(alloc, lines)?;
    judge(alloc, &statements)?;
    let models = hierarchy_of(alloc, &statements)?;
    refuse(alloc, &models)
}

/// The hierarchy of a text of at most `limit` bytes, in time and memory about in proportion to the text. The
/// call refuses by any refusal but `Flat`. Each refusal but want of memory is the one that the definition
/// gives; want of memory may come at any point.
pub fn read_hier(alloc: Global, text: &[u8], limit: u64) -> Result<Hier, HierRefusal>
    requires { limit < 2 ^ 31 }
    ensures ok { IfOk result (λ h. hier_reading text.now limit ≡ Ok h) }
    ensures err { IfErr result (λ told. Tells told (hier_reading text.now limit)) }
{
    if text.len() as u64 > limit {
        return Err(HierRefusal::Line(BlifRefusal::TextLong));
    }
    let Ok(lines) = split_lines(alloc, text, limit) else {
        return Err(HierRefusal::OutOfMemory);
    };
    test_lines(alloc, lines.as_slice())?;
    Ok(Hier::new(lines))
}
