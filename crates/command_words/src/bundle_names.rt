//! Which names are those of a bundle's files: the stem, with an ending.
ghost use Rattle.std.specs.Prelude.{◌≡◌, ◌++◌, bytes_eq};
ghost use Rattle.job_semantics.specs.Endings.{ending_word, is_bundle_name};

use job_semantics::ending::Ending;

/// All endings, in the order in which the files are written.
const ENDINGS: [Ending; 5] = [
    Ending::Netlist,
    Ending::Formula,
    Ending::Log,
    Ending::Vectors,
    Ending::Report,
];

fn ending_word(ending: Ending) -> &'static [u8]
    ensures { result.now ≡ ending_word ending }
{
    match ending {
        Ending::Netlist => b".blif",
        Ending::Formula => b".cnf",
        Ending::Log => b".lrat",
        Ending::Vectors => b".wit",
        Ending::Report => b".txt",
    }
}

fn is_stem_with(stem: &[u8], ending: &[u8], name: &[u8]) -> bool
    ensures { result ≡ bytes_eq name.now (stem.now ++ ending.now) }
{
    name.starts_with(stem) && &name[stem.len()..] == ending
}

/// Whether the name is one of the five of a bundle.
pub fn is_bundle_name(stem: &[u8], name: &[u8]) -> bool
    ensures { result ≡ is_bundle_name stem.now name.now }
{
    for ending in ENDINGS {
        if is_stem_with(stem, ending_word(ending), name) {
            return true;
        }
    }
    false
}
