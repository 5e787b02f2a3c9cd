//! A bundle's files, each read for what a clause asks of it.
ghost use Rattle.std.specs.Prelude.{◌≡◌, ◌↔◌, ◌≤◌, length, IsTrue, IfSome, IfOk, IfErr};
ghost use Rattle.semantics.specs.Net.{IsSmall};
ghost use Rattle.proof_semantics.specs.Formula.{dimacs_text};
ghost use Rattle.bundle_texts.specs.LogJudged.{IsOfRefutation, IsLogIn};
ghost use Rattle.bundle_texts.specs.FilesRead.{IsNetIn, IsReportIn};
ghost use Rattle.bundle.specs.Shown.{AreShownIn};
ghost use Rattle.bundle.specs.Judging.{TextRead, TextUnread};

use crate::asked::Asked;
use crate::vectors_check::VectorsCheck;
use blif_text::reading::read_blif;
use blif_text::refusal::BlifRefusal;
use bundle_texts::formula_check::FormulaCheck;
use bundle_texts::item_sink::ItemSink;
use bundle_texts::log_check::LogCheck;
use bundle_texts::report_reading::{ReportRead, read_report};
use bundle_writing::report_lines::REPORT_LIMIT;
use cnf_core::cnf::Cnf;
use file_core::files::Files;
use file_reading::front::Front;
use file_reading::reading::read_file;
use file_reading::unread::Unread;
use net_core::net::Net;
use semantics::limits::{MOST_BUNDLE_BYTES, MOST_INPUTS};
use semantics::metric::Metric;
use std::alloc::Global;

/// The net of a file, if its text is one.
pub(crate) fn read_netlist<F: Files>(
    alloc: Global,
    files: &mut F,
    name: &[u8],
) -> Result<Option<Net>, Unread>
    ensures ok { IfOk result
        (λ net. TextRead (F.told files.old) (F.told files.new) name.now (IsNetIn net)) }
    ensures small { IfOk result (λ net. IfSome net IsSmall) }
    ensures err { IfErr result (TextUnread (F.told files.old) (F.told files.new) name.now) }
{
    let mut front = Front::new(alloc, MOST_BUNDLE_BYTES);
    read_file(files, name, &mut front)?;
    match read_blif(alloc, front.bytes(), MOST_BUNDLE_BYTES as u64) {
        Ok(net) => Ok(Some(net)),
        Err(refusal) => match refusal {
            BlifRefusal::OutOfMemory => Err(Unread::OutOfMemory),
            _ => Ok(None),
        },
    }
}

/// The report of a file, if its text is one for the metric, the bound and nets of `inputs` inputs. No text
/// longer than `REPORT_LIMIT` is a report, so the file is read at most one byte past that limit.
pub(crate) fn read_report_file<F: Files>(
    alloc: Global,
    files: &mut F,
    name: &[u8],
    metric: Metric,
    bound: u128,
    inputs: u32,
) -> Result<Option<ReportRead>, Unread>
    requires { inputs ≤ MOST_INPUTS }
    ensures ok { IfOk result
        (λ report. TextRead (F.told files.old) (F.told files.new) name.now
        (IsReportIn inputs metric bound report)) }
    ensures width { IfOk result (λ report. IfSome report (λ r. length r.witness ≡ inputs)) }
    ensures err { IfErr result (TextUnread (F.told files.old) (F.told files.new) name.now) }
{
    let mut front = Front::new(alloc, REPORT_LIMIT);
    read_file(files, name, &mut front)?;
    Ok(read_report(alloc, front.bytes(), metric, bound, inputs)?)
}

/// Whether the vectors of a file show what is asked, if its text is lines of vectors of which the witness is
/// the first. The file is read no further than the piece with its first wrong byte.
pub(crate) fn read_vectors_file<F: Files>(
    alloc: Global,
    files: &mut F,
    name: &[u8],
    asked: Asked,
) -> Result<Option<bool>, Unread>
    ensures ok { IfOk result
        (λ shown. TextRead (F.told files.old) (F.told files.new) name.now (AreShownIn asked.entry shown)) }
    ensures err { IfErr result (TextUnread (F.told files.old) (F.told files.new) name.now) }
{
    let mut check = VectorsCheck::new(alloc, asked)?;
    read_file(files, name, &mut check)?;
    Ok(check.finish()?)
}

/// Whether a file is the formula's text.
pub(crate) fn is_formula<F: Files>(
    files: &mut F,
    name: &[u8],
    formula: &Cnf,
) -> Result<bool, Unread>
    ensures ok { IfOk result
        (λ yes. TextRead (F.told files.old) (F.told files.new) name.now
        (λ content. IsTrue yes ↔ (content ≡ dimacs_text formula.now))) }
    ensures err { IfErr result (TextUnread (F.told files.old) (F.told files.new) name.now) }
{
    let mut check = FormulaCheck::new(formula);
    read_file(files, name, &mut check)?;
    Ok(check.finish())
}

/// What is kept of a file's log, if it refutes the formula.
pub(crate) fn read_log<F: Files, L: ItemSink>(
    alloc: Global,
    files: &mut F,
    name: &[u8],
    formula: &Cnf,
) -> Result<Option<L>, Unread>
    ensures ok { IfOk result
        (λ log. TextRead (F.told files.old) (F.told files.new) name.now
        (IsLogIn L.holds formula.now.clauses log)) }
    ensures refutes { IfOk result (λ log. IfSome log (IsOfRefutation L.holds formula.now.clauses)) }
    ensures err { IfErr result (TextUnread (F.told files.old) (F.told files.new) name.now) }
{
    let mut check: LogCheck<L> = LogCheck::new(alloc, formula)?;
    read_file(files, name, &mut check)?;
    Ok(check.finish()?)
}
