//! The walk over the clauses of a certificate, in their order. Each file is opened when a clause first needs
//! it, and the walk ends at the first clause that fails.
ghost use Rattle.std.specs.Prelude.{◌≡◌, ◌↔◌, ◌&&◌, length, IsTrue};
ghost use Rattle.semantics.specs.Net.{IsSmall, input_count};
ghost use Rattle.proof_semantics.specs.Miter.{miter};
ghost use Rattle.semantics.specs.declared.metric.Kind.TheVariants.{Abs};
ghost use Rattle.semantics.specs.Error.{one_word};
ghost use Rattle.job_semantics.specs.Certificate.{Texts, AreCounts};
ghost use Rattle.bundle_texts.specs.Reading.{report_read};
ghost use Rattle.bundle.specs.Shown.{claimed_version};
ghost use Rattle.bundle.specs.Loading.{of_stem};
ghost use Rattle.bundle.specs.Judging.{Answers, IsFirstFault, NothingKnown, NetKnown, ReportKnown};
ghost use Rattle.bundle.specs.Judging.{WitnessKnown, FormulaKnown, LogKnown, claimed_by, claimed_report};

use crate::asked::Asked;
use crate::claim::{Claimed, Contents, are_counts};
use crate::file_texts::{is_formula, read_log, read_netlist, read_report_file, read_vectors_file};
use crate::judged::Judged;
use bundle_texts::item_sink::ItemSink;
use bundle_texts::report_reading::ReportRead;
use bundle_writing::stem::Stem;
use cnf_core::cnf::Cnf;
use file_core::files::Files;
use file_reading::unread::Unread;
use job_semantics::certificate_clause::Clause;
use job_semantics::claim::Claim;
use job_semantics::ending::Ending;
use job_semantics::version::Version;
use miter::level::miter_of;
use net_core::net::Net;
use net_errors::compared::Compared;
use net_errors::net_error::error_at;
use net_errors::ports::same_ports;
use std::alloc::Global;

/// The first failing clause among those on the counts and on the report's last line, which need no further
/// file.
fn check_counts(claimed: &Claimed, contents: &Contents) -> Option<Clause>
    requires exact { IsSmall claimed.now.nets.now.exact }
    requires approx { IsSmall claimed.now.nets.now.approx }
    ensures { (texts : Texts)
        → LogKnown (claimed_by claimed.now) (claimed_report claimed.now.claim contents.now.report.now)
        contents.now.is_shown texts
        → IsFirstFault claimed.now.claim claimed.now.nets.now.exact texts result }
{
    if !are_counts(claimed, contents.report) {
        return Some(Clause::Counts);
    }
    if !contents.is_shown {
        return Some(Clause::Minimal);
    }
    None
}

/// What the clauses from the log's on come to.
fn check_log<F: Files, L: ItemSink>(
    alloc: Global,
    claimed: &Claimed,
    contents: &Contents,
    formula: Cnf,
    files: &mut F,
) -> Result<Judged<L>, Unread>
    requires exact { IsSmall claimed.now.nets.now.exact }
    requires approx { IsSmall claimed.now.nets.now.approx }
    requires formula { formula ≡ miter claimed.now.nets.now.exact claimed.now.nets.now.approx
        claimed.now.claim.metric contents.now.report.now.maximum }
    ensures { Answers L.holds (of_stem claimed.now.claim claimed.now.nets.now.exact claimed.now.stem.now)
        (FormulaKnown (claimed_by claimed.now) (claimed_report claimed.now.claim contents.now.report.now)
        contents.now.is_shown)
        (F.told files.old) (F.told files.new) result }
{
    let Some(log) = read_log(alloc, files, claimed.stem.name(Ending::Log), &formula)? else {
        return Ok(Judged::Failing(Clause::Log));
    };
    match check_counts(claimed, contents) {
        None => Ok(Judged::Good { goal: formula, log }),
        Some(clause) => Ok(Judged::Failing(clause)),
    }
}

/// What the clauses from the formula's on come to.
fn check_formula<F: Files, L: ItemSink>(
    alloc: Global,
    claimed: &Claimed,
    contents: &Contents,
    files: &mut F,
) -> Result<Judged<L>, Unread>
    requires exact { IsSmall claimed.now.nets.now.exact }
    requires approx { IsSmall claimed.now.nets.now.approx }
    ensures { Answers L.holds (of_stem claimed.now.claim claimed.now.nets.now.exact claimed.now.stem.now)
        (WitnessKnown (claimed_by claimed.now) (claimed_report claimed.now.claim contents.now.report.now)
        contents.now.is_shown)
        (F.told files.old) (F.told files.new) result }
{
    let level = contents.report.maximum;
    let formula = miter_of(alloc, claimed.nets, claimed.claim.metric, level)?;
    if !is_formula(files, claimed.stem.name(Ending::Formula), &formula)? {
        return Ok(Judged::Failing(Clause::Formula));
    }
    check_log(alloc, claimed, contents, formula, files)
}

/// Whether what the vectors show of the moves can decide: the witness attains the maximum, and the clause on
/// the counts holds.
fn decides_by_moves(claimed: &Claimed, report: &ReportRead, is_attained: bool) -> bool
    requires exact { IsSmall claimed.now.nets.now.exact }
    requires approx { IsSmall claimed.now.nets.now.approx }
    ensures { IsTrue result ↔ (IsTrue is_attained
        × AreCounts claimed.now.claim.growth claimed.now.nets.now.exact claimed.now.nets.now.approx
        (report_read (one_word Abs) 0 report.now)) }
{
    is_attained && are_counts(claimed, report)
}

/// The version whose moves are to be broken; none where the report does not say that they are, or no move can
/// decide.
fn asked_version(report: &ReportRead, by_moves: bool) -> Option<Version>
    ensures { result ≡ claimed_version (by_moves && report.now.counts.minimal) report.now.version }
{
    if by_moves && report.counts.minimal {
        Some(report.version)
    } else {
        None
    }
}

/// What the clauses from the witness's on come to. Where a clause before the last fails whatever the vectors
/// show of the moves, no move is tried.
fn check_witness<F: Files, L: ItemSink>(
    alloc: Global,
    claimed: &Claimed,
    report: &ReportRead,
    files: &mut F,
) -> Result<Judged<L>, Unread>
    requires exact { IsSmall claimed.now.nets.now.exact }
    requires approx { IsSmall claimed.now.nets.now.approx }
    requires width { length report.now.witness ≡ input_count claimed.now.nets.now.exact }
    ensures { Answers L.holds (of_stem claimed.now.claim claimed.now.nets.now.exact claimed.now.stem.now)
        (ReportKnown (claimed_by claimed.now)
        (claimed_report claimed.now.claim report.now))
        (F.told files.old) (F.told files.new) result }
{
    let witness = report.witness.as_slice();
    let error = error_at(alloc, claimed.nets, claimed.claim.metric, witness)?;
    let is_attained = error == report.maximum;
    let by_moves = decides_by_moves(claimed, report, is_attained);
    let version = asked_version(report, by_moves);
    let claim = claimed.claim;
    let asked = Asked::new(claimed.nets, claim.metric, claim.bound, witness, version);
    let name = claimed.stem.name(Ending::Vectors);
    let Some(is_shown) = read_vectors_file(alloc, files, name, asked)? else {
        return Ok(Judged::Failing(Clause::Witness));
    };
    if !is_attained {
        return Ok(Judged::Failing(Clause::Attained));
    }
    let contents = Contents { report, is_shown };
    check_formula(alloc, claimed, &contents, files)
}

/// What the clauses from the report's on come to.
fn check_report<F: Files, L: ItemSink>(
    alloc: Global,
    claimed: &Claimed,
    files: &mut F,
) -> Result<Judged<L>, Unread>
    requires exact { IsSmall claimed.now.nets.now.exact }
    requires approx { IsSmall claimed.now.nets.now.approx }
    ensures { Answers L.holds (of_stem claimed.now.claim claimed.now.nets.now.exact claimed.now.stem.now)
        (NetKnown claimed.now.nets.now.exact claimed.now.nets.now.approx)
        (F.told files.old) (F.told files.new) result }
{
    let name = claimed.stem.name(Ending::Report);
    let inputs = claimed.nets.exact().inputs();
    let claim = claimed.claim;
    let Some(report) = read_report_file(alloc, files, name, claim.metric, claim.bound, inputs)?
    else {
        return Ok(Judged::Failing(Clause::ReportForm));
    };
    if report.maximum > claim.bound {
        return Ok(Judged::Failing(Clause::MaximumWithin));
    }
    check_witness(alloc, claimed, &report, files)
}

/// What all clauses come to, from the netlist's on: the first that fails, or the formula of the certificate
/// and what a sink keeps of its log.
pub(crate) fn check_netlist<F: Files, L: ItemSink>(
    alloc: Global,
    net: &Net,
    claim: Claim,
    stem: &Stem,
    files: &mut F,
) -> Result<Judged<L>, Unread>
    requires { IsSmall net.now }
    ensures { Answers L.holds (of_stem claim net.now stem.now) NothingKnown (F.told files.old)
        (F.told files.new) result }
{
    let Some(approx) = read_netlist(alloc, files, stem.name(Ending::Netlist))? else {
        return Ok(Judged::Failing(Clause::Netlist));
    };
    if !same_ports(net, &approx) {
        return Ok(Judged::Failing(Clause::Ports));
    }
    let nets = Compared::new(net, &approx);
    let claimed = Claimed {
        nets: &nets,
        claim,
        stem,
    };
    check_report(alloc, &claimed, files)
}
