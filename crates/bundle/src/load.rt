//! A bundle is checked, and the proof in it is kept.
ghost use Rattle.std.specs.Prelude.{IfOk, IfErr};
ghost use Rattle.semantics.specs.Net.{IsSmall};
ghost use Rattle.bundle.specs.Judging.{FilesKept, IsCause, NothingKnown};
ghost use Rattle.bundle.specs.Loading.{of_stem, IsLoaded};

use crate::judging::check_netlist;
use crate::loaded::Loaded;
use bundle_writing::stem::Stem;
use file_core::files::Files;
use file_reading::unread::Unread;
use job_semantics::claim::Claim;
use net_core::net::Net;
use std::alloc::Global;

/// The formula and the log of the bundle of the stem, if its files are a certificate of what is claimed.
/// Reads and judges the files as [`check_bundle`] does, and keeps the log's items besides.
pub fn load_bundle<F: Files>(
    alloc: Global,
    net: &Net,
    claim: Claim,
    stem: &Stem,
    files: &mut F,
) -> Result<Loaded, Unread>
    requires { IsSmall net.now }
    ensures kept { FilesKept (of_stem claim net.now stem.now) NothingKnown
        (F.told files.old) (F.told files.new) }
    ensures loaded { IfOk result (IsLoaded (of_stem claim net.now stem.now)
        (F.told files.old) (F.told files.new)) }
    ensures cause { IfErr result (IsCause (of_stem claim net.now stem.now) NothingKnown
        (F.told files.old) (F.told files.new)) }
{
    let judged = check_netlist(alloc, net, claim, stem, files)?;
    Ok(Loaded::of(judged))
}
