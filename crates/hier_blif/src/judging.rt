//! What is wrong with a line of a text of several models, by the lines before it.
ghost use Rattle.std.specs.Prelude.{◌≡◌, false, None, IfErr, OnOk, option_map};
ghost use Rattle.blif_semantics.specs.Reading.{wrong_line};
ghost use Rattle.blif_text.specs.Places.{wrong_if};
ghost use Rattle.text_words.specs.Slices.{texts};
ghost use Rattle.hierarchy_semantics.specs.ModelLines.{wrong_at};
ghost use Rattle.hierarchy_semantics.specs.Refusals.{line};
ghost use Rattle.hier_blif.specs.Refusals.{TellsOne};
ghost use Rattle.hier_blif.specs.Judging.{place_for, first_wrong_in};

use crate::refusal::{HierRefusal, line_refusal};
use blif_semantics::kind::Kind;
use blif_text::judging::{OpenTable, Place, Wrong, refusal, table_by, unless};
use blif_text::statements::{are_printable, arguments, kind_of};
use hier_parts::statements::{Statement, is_subckt, is_use};
use std::alloc::Global;

/// What is wrong with a line, where `ended` says whether the line before it was `.end`, and `table` may get
/// rows.
fn wrong_at(ended: bool, table: Option<OpenTable>, words: &[&[u8]]) -> Option<Wrong>
    ensures { wrong_if result (texts words.now)
        ≡ wrong_at (place_for ended table (texts words.now)) (texts words.now) }
{
    let kind = kind_of(words);
    if !are_printable(words) {
        Some(Wrong::BadByte)
    } else if ended && kind != Kind::Model {
        Some(Wrong::AfterEnd)
    } else if is_subckt(words) {
        unless(is_use(arguments(words)), Wrong::BadName)
    } else {
        Place::new(false, ended && kind != Kind::Model, table).wrong_by(kind, words)
    }
}

/// Whether no line is wrong, or else the refusal of the first that is.
pub fn judge(alloc: Global, lines: &[Statement]) -> Result<(), HierRefusal>
    ensures ok { OnOk result (first_wrong_in false None lines.now ≡ None) }
    ensures err { IfErr result
        (λ told. TellsOne told (option_map (λ w. line (wrong_line w.line w.wrong))
        (first_wrong_in false None lines.now))) }
{
    let mut ended = false;
    let mut table = None;
    for line in lines {
        let words = line.words();
        if let Some(wrong) = wrong_at(ended, table, words) {
            return Err(line_refusal(refusal(alloc, line.number(), wrong, words)));
        }
        let kind = kind_of(words);
        ended = kind == Kind::End;
        table = table_by(kind, words, table);
    }
    Ok(())
}
