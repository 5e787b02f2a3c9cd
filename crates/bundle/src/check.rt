//! A bundle's files are checked.
ghost use Rattle.std.specs.Prelude.{IfOk, IfErr};
ghost use Rattle.semantics.specs.Net.{IsSmall};
ghost use Rattle.bundle.specs.Loading.{of_stem};
ghost use Rattle.bundle.specs.Judging.{FilesKept, IsCause, IsVerdict, NothingKnown};

use crate::judged::Judged;
use crate::judging::check_netlist;
use crate::verdict::Verdict;
use bundle_texts::item_sink::NoItems;
use bundle_writing::stem::Stem;
use file_core::files::Files;
use file_reading::unread::Unread;
use job_semantics::claim::Claim;
use net_core::net::Net;
use std::alloc::Global;

/// Whether the files of the stem are a certificate of what is claimed of the bundle's net: the ten clauses
/// are tested in their order, on what the files hold and nothing else. A file that neither the first failing
/// clause nor a clause before it needs is not opened. Where the claim refuses growth, the bundle's net may
/// have no more tables and no more literals than the original; where it allows growth, it may have more, and
/// the report's counts are compared all the same.
pub fn check_bundle<F: Files>(
    alloc: Global,
    net: &Net,
    claim: Claim,
    stem: &Stem,
    files: &mut F,
) -> Result<Verdict, Unread>
    requires { IsSmall net.now }
    ensures kept { FilesKept (of_stem claim net.now stem.now) NothingKnown (F.told files.old)
        (F.told files.new) }
    ensures verdict { IfOk result
        (IsVerdict (of_stem claim net.now stem.now) (F.told files.old) (F.told files.new)) }
    ensures cause { IfErr result
        (IsCause (of_stem claim net.now stem.now) NothingKnown (F.told files.old) (F.told files.new)) }
{
    let judged: Judged<NoItems> = check_netlist(alloc, net, claim, stem, files)?;
    Ok(Verdict::of(judged.failing()))
}
