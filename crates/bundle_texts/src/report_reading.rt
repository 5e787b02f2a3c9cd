//! The text of a report, `STEM.txt`, read back.
ghost use Rattle.std.specs.Prelude.{◌≡◌, ◌≢◌, ◌<◌, ℕ, Bool, List, MatchOption, IfOk};
ghost use Rattle.job_semantics.specs.Report.{Report};
ghost use Rattle.job_semantics.specs.Certificate.{IsReportText};
ghost use Rattle.bundle_texts.specs.Pieces.{bits_in};
ghost use Rattle.bundle_texts.specs.ReportParts.{head_text, minimal_text, AreCountsBefore, Front};
ghost use Rattle.bundle_texts.specs.ReportParts.{IsFrontBefore, IsTail};
ghost use Rattle.bundle_texts.specs.Reading.{HasShortWidth, report_read};

use crate::bits::bits_of;
use crate::pieces::{after, number_before, vector_before};
use bundle_writing::report_lines::{ReportText, add_metric, add_number, add_word, version_word};
use job_semantics::version::Version;
use net_core::items::Bits;
use semantics::limits::LARGEST_ERROR;
use semantics::metric::Metric;
use std::alloc::{AllocError, Global};

/// The greatest count of a report.
const MOST_COUNT: u128 = u32::MAX as u128;

/// What a report says besides its metric and its bound.
#[derive(Drop)]
pub struct ReportRead {
    pub version: Version,
    pub maximum: u128,
    pub witness: Bits,
    pub counts: Counts,
}

/// How large the two netlists of a report are, and whether the report says that the written one is minimal.
/// `old` is the netlist as it was read, and `new` the netlist as written.
#[derive(Clone, Copy, Debug)]
pub struct Counts {
    pub old_tables: u32,
    pub new_tables: u32,
    pub old_literals: u32,
    pub new_literals: u32,
    pub minimal: bool,
}

/// The text before the maximum.
fn head(version: Version, metric: Metric, bound: u128) -> ReportText
    ensures { result.bytes ≡ head_text version metric bound }
{
    let mut text = ReportText::new();
    add_word(&mut text, "salsa", version_word(version));
    add_metric(&mut text, metric);
    add_number(&mut text, "bound", bound);
    text.push_str("maximum ");
    text
}

/// The maximum, the digits of the witness, and what stands behind their lines.
fn front<'a>(text: &'a [u8], head: &[u8], width: usize) -> Option<(u128, &'a [u8], &'a [u8])>
    ensures { MatchOption result
        ((f : Front) → ¬ IsFrontBefore head.now width text.now f)
        (λ p. IsFrontBefore head.now width text.now
        (record { maximum = p.0; witness = bits_in p.1.now; rest = p.2.now })) }
{
    let rest = after(text, head)?;
    let (maximum, rest) = number_before(rest, LARGEST_ERROR, b'\n')?;
    let rest = after(rest, b"witness ")?;
    let (digits, rest) = vector_before(rest, width)?;
    Some((maximum, digits, rest))
}

/// The two counts of a line that begins with the key, and what stands behind it.
fn two_counts<'a>(text: &'a [u8], key: &[u8]) -> Option<(u32, u32, &'a [u8])>
    ensures { MatchOption result
        ((old new : ℕ) (rest : List ℕ) → ¬ AreCountsBefore key.now text.now old new rest)
        (λ p. AreCountsBefore key.now text.now p.0 p.1 p.2.now) }
{
    let rest = after(text, key)?;
    let (old, rest) = number_before(rest, MOST_COUNT, b' ')?;
    let (new, rest) = number_before(rest, MOST_COUNT, b'\n')?;
    Some((old as u32, new as u32, rest))
}

/// What the last line says.
fn minimal(text: &[u8]) -> Option<bool>
    ensures { MatchOption result
        ((is_minimal : Bool) → text.now ≢ minimal_text is_minimal)
        (λ is_minimal. text.now ≡ minimal_text is_minimal) }
{
    if text == b"minimal yes\n".as_slice() {
        Some(true)
    } else if text == b"minimal no\n".as_slice() {
        Some(false)
    } else {
        None
    }
}

/// The three last lines, to the text's end.
fn tail(text: &[u8]) -> Option<Counts>
    ensures { MatchOption result ((counts : Counts) → ¬ IsTail text.now counts) (IsTail text.now) }
{
    let (old_tables, new_tables, rest) = two_counts(text, b"tables ")?;
    let (old_literals, new_literals, rest) = two_counts(rest, b"literals ")?;
    let minimal = minimal(rest)?;
    Some(Counts {
        old_tables,
        new_tables,
        old_literals,
        new_literals,
        minimal,
    })
}

/// What the text says, if it is the text of a report of this version, for the metric, the bound and nets of
/// `inputs` inputs; None for any other text.
fn read_version(
    alloc: Global,
    text: &[u8],
    version: Version,
    metric: Metric,
    bound: u128,
    inputs: u32,
) -> Result<Option<ReportRead>, AllocError>
    ensures { IfOk result (λ read. MatchOption read
        ((r : Report) → r.version ≡ version → ¬ IsReportText inputs metric bound text.now r)
        (λ found. IsReportText inputs metric bound text.now (report_read metric bound found))) }
{
    let head = head(version, metric, bound);
    let Some((maximum, digits, rest)) = front(text, head.as_str().as_bytes(), inputs as usize)
    else {
        return Ok(None);
    };
    let Some(counts) = tail(rest) else {
        return Ok(None);
    };
    Ok(Some(ReportRead {
        version,
        maximum,
        witness: bits_of(alloc, digits)?,
        counts,
    }))
}

/// What the text says, if it is the text of a report of either version, for the metric, the bound and nets of
/// `inputs` inputs; None for any other text.
pub fn read_report(
    alloc: Global,
    text: &[u8],
    metric: Metric,
    bound: u128,
    inputs: u32,
) -> Result<Option<ReportRead>, AllocError>
    ensures read { IfOk result (λ read. MatchOption read
        ((r : Report) → ¬ IsReportText inputs metric bound text.now r)
        (λ found. IsReportText inputs metric bound text.now (report_read metric bound found))) }
    ensures width { HasShortWidth metric }
{
    if let Some(read) = read_version(alloc, text, Version::Two, metric, bound, inputs)? {
        return Ok(Some(read));
    }
    read_version(alloc, text, Version::One, metric, bound, inputs)
}
