//! What a bundle is checked for, and the nets in it.
ghost use Rattle.std.specs.Prelude.{◌↔◌, IsTrue};
ghost use Rattle.semantics.specs.Net.{IsSmall};
ghost use Rattle.semantics.specs.declared.metric.Kind.TheVariants.{Abs};
ghost use Rattle.semantics.specs.Error.{one_word};
ghost use Rattle.job_semantics.specs.Certificate.{AreCounts};
ghost use Rattle.bundle_texts.specs.Reading.{report_read};

use bundle_texts::report_reading::ReportRead;
use bundle_writing::stem::Stem;
use job_semantics::claim::Claim;
use job_semantics::growth::Growth;
use net_errors::compared::Compared;

/// What the files of a stem are to show: a net, the net of the bundle, which is compared with it, and what is
/// claimed of the latter.
#[derive(Clone, Copy)]
pub(crate) struct Claimed<'a> {
    pub nets: &'a Compared<'a>,
    pub claim: Claim,
    pub stem: &'a Stem,
}

/// What was read of the files behind the netlist.
#[derive(Clone, Copy)]
pub(crate) struct Contents<'a> {
    pub report: &'a ReportRead,
    /// Whether the vectors show what the report says of the moves.
    pub is_shown: bool,
}

/// Whether the report's counts are those of the two nets, and none grew where growth is refused.
pub(crate) fn are_counts(claimed: &Claimed, report: &ReportRead) -> bool
    requires exact { IsSmall claimed.now.nets.now.exact }
    requires approx { IsSmall claimed.now.nets.now.approx }
    ensures { IsTrue result
        ↔ AreCounts claimed.now.claim.growth claimed.now.nets.now.exact claimed.now.nets.now.approx
        (report_read (one_word Abs) 0 report.now) }
{
    let exact = claimed.nets.exact();
    let approx = claimed.nets.approx();
    exact.see_sound();
    approx.see_sound();
    let old_literals = exact.literals();
    let new_literals = approx.literals();
    let may_grow = claimed.claim.growth == Growth::Allowed;
    report.counts.old_tables == exact.tables()
        && report.counts.new_tables == approx.tables()
        && u64::from(report.counts.old_literals) == old_literals
        && u64::from(report.counts.new_literals) == new_literals
        && (may_grow || (approx.tables() <= exact.tables() && new_literals <= old_literals))
}
