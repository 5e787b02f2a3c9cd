//! Which names may stand together in a job: no file is written that the job reads.
ghost use Rattle.std.specs.Prelude.{◌≡◌};
ghost use Rattle.job_semantics.specs.Job.{are_file_words, is_output_word, are_task_names, are_trim_words};
ghost use Rattle.command_words.specs.Names.{names_of};

use crate::bundle_names::is_bundle_name;
use crate::net_jobs::Names;

/// Whether IN and STEM are not empty, and IN is no file of the bundle.
pub(crate) fn are_file_words(input: &[u8], stem: &[u8]) -> bool
    ensures { result ≡ are_file_words input.now stem.now }
{
    !input.is_empty() && !stem.is_empty() && !is_bundle_name(stem, input)
}

/// Whether OUT is not empty, and is not IN.
pub(crate) fn is_output_word(input: &[u8], output: &[u8]) -> bool
    ensures { result ≡ is_output_word input.now output.now }
{
    !output.is_empty() && input != output
}

/// Whether neither IN nor the second netlist is a file of the bundle.
pub(crate) fn are_task_names(names: &Names<'_>) -> bool
    ensures { result ≡ are_task_names (names_of names.now) }
{
    are_file_words(names.input, names.stem) && are_file_words(names.second, names.stem)
}

/// Whether these are IN, STEM and OUT of a trim job: OUT is no file of the bundle either.
pub(crate) fn are_trim_words(input: &[u8], stem: &[u8], output: &[u8]) -> bool
    ensures { result ≡ are_trim_words input.now stem.now output.now }
{
    are_file_words(input, stem) && is_output_word(input, output) && !is_bundle_name(stem, output)
}
