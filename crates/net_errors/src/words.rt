//! Where the words stand into which outputs are cut.
ghost use Rattle.std.specs.Prelude.{◌≡◌, ◌<◌, ◌≤◌, ◌+◌, ◌-◌, ◌*◌, min};
ghost use Rattle.semantics.specs.Error.{word_width, word_count};

use semantics::metric::Metric;

/// How many outputs a word has where there are `outputs`, but for the last word, which may have fewer.
pub fn word_width(metric: Metric, outputs: u32) -> u32
    ensures { result ≡ word_width metric outputs }
{
    metric.width.unwrap_or(outputs).max(1)
}

/// How many words `outputs` outputs make. Without a width nothing is divided, since this is asked for each
/// block of patterns.
pub fn word_count(metric: Metric, outputs: u32) -> u32
    ensures { result ≡ word_count metric outputs }
{
    match metric.width {
        None => outputs.min(1),
        Some(_) => outputs.div_ceil(word_width(metric, outputs)),
    }
}

/// The first output of word `word`, and how many outputs that word has.
pub fn word_place(metric: Metric, outputs: u32, word: u32) -> (u32, u32)
    requires { word < word_count metric outputs }
    ensures first { result.0 ≡ word * word_width metric outputs }
    ensures size { result.1
        ≡ min (word_width metric outputs) (outputs - word * word_width metric outputs) }
    ensures inside { result.0 + result.1 ≤ outputs }
    ensures some { 0 < result.1 }
{
    let width = word_width(metric, outputs);
    let first = word * width;
    (first, width.min(outputs - first))
}
