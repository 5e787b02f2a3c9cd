//! The word of a metric.
ghost use Rattle.std.specs.Prelude.{◌≡◌, position};
ghost use Rattle.job_semantics.specs.Job.{kind_of, is_slash, metric_of};

use decimal_words::decimal::number_from_to;
use semantics::limits::MOST_OUTPUTS;
use semantics::metric::{Kind, Metric};

/// How two words of outputs are compared, if the word names that.
fn kind(word: &[u8]) -> Option<Kind>
    ensures { result ≡ kind_of word.now }
{
    if word == b"abs".as_slice() {
        Some(Kind::Abs)
    } else if word == b"rel".as_slice() {
        Some(Kind::Rel)
    } else if word == b"ham".as_slice() {
        Some(Kind::Ham)
    } else if word == b"sabs".as_slice() {
        Some(Kind::Sabs)
    } else {
        None
    }
}

/// Where the first slash is.
fn slash_at(word: &[u8]) -> Option<usize>
    ensures { result ≡ position is_slash word.now }
{
    word.iter().position(|byte| *byte == b'/')
}

/// The metric that the word names. What stands behind a slash is the number of outputs in each word.
#[tactic(auto, using(crate::proofs::JobWords::number_within))]
pub(crate) fn metric(word: &[u8]) -> Option<Metric>
    ensures { result ≡ metric_of word.now }
{
    let Some(at) = slash_at(word) else {
        return Some(Metric {
            kind: kind(word)?,
            width: None,
        });
    };
    let kind = kind(&word[..at])?;
    let width = number_from_to(&word[at + 1..], 1, MOST_OUTPUTS as u128)?;
    Some(Metric {
        kind,
        width: Some(width as u32),
    })
}
