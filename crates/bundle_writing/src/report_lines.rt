//! Lines of a report's text, made on the stack, both for writing a report and for reading one back.
ghost use Rattle.std.specs.Prelude.{◌≡◌, ◌+◌, ◌≤◌, [], ◌∷◌, ◌++◌, length, codes, decimal};
ghost use Rattle.semantics.specs.Texts.{line_text};
ghost use Rattle.job_semantics.specs.Report.{kind_word, metric_word, version_word};
ghost use Rattle.bundle_writing.specs.declared.report_lines.TheConstants.{REPORT_LIMIT};

use arrayvec::ArrayString;
use itoa::Buffer;
use job_semantics::version::Version;
use semantics::metric::{Kind, Metric};

/// The most bytes of the report of a net within the limits.
pub const REPORT_LIMIT: usize = 1024;

/// Room for every report of nets with at most 256 inputs.
pub type ReportText = ArrayString<REPORT_LIMIT>;

/// Adds a line of a key and a word.
pub fn add_word(text: &mut ReportText, key: &str, word: &str)
    requires { length text.old.bytes + length key.now + length word.now + 2 ≤ REPORT_LIMIT }
    ensures bytes { text.new.bytes ≡ text.old.bytes ++ line_text (key.now ∷ word.now ∷ []) }
    ensures len { length text.new.bytes ≡ length text.old.bytes + length key.now + length word.now + 2 }
{
    text.push_str(key);
    text.push_str(" ");
    text.push_str(word);
    text.push_str("\n");
}

/// Adds a line of a key and a number.
pub fn add_number(text: &mut ReportText, key: &str, number: u128)
    requires { length text.old.bytes + length key.now + 42 ≤ REPORT_LIMIT }
    ensures bytes { text.new.bytes ≡ text.old.bytes ++ line_text (key.now ∷ decimal number ∷ []) }
    ensures len { length text.new.bytes ≤ length text.old.bytes + length key.now + 42 }
{
    let mut digits = Buffer::new();
    add_word(text, key, digits.format(number));
}

/// The word of a version.
pub fn version_word(version: Version) -> &'static str
    ensures word { result.now ≡ version_word version }
    ensures len { length result.now ≤ 1 }
{
    match version {
        Version::One => "1",
        Version::Two => "2",
    }
}

/// The word that says how two words of outputs are compared.
fn kind_word(kind: Kind) -> &'static str
    ensures word { result.now ≡ kind_word kind }
    ensures len { length result.now ≤ 4 }
{
    match kind {
        Kind::Abs => "abs",
        Kind::Rel => "rel",
        Kind::Ham => "ham",
        Kind::Sabs => "sabs",
    }
}

/// Adds the line of the metric, in at most 23 bytes.
pub fn add_metric(text: &mut ReportText, metric: Metric)
    requires { length text.old.bytes + 23 ≤ REPORT_LIMIT }
    ensures bytes { text.new.bytes ≡ text.old.bytes ++ line_text (codes "metric" ∷ metric_word metric ∷ []) }
    ensures len { length text.new.bytes ≤ length text.old.bytes + 23 }
{
    text.push_str("metric ");
    text.push_str(kind_word(metric.kind));
    if let Some(width) = metric.width {
        let mut digits = Buffer::new();
        text.push_str("/");
        text.push_str(digits.format(width));
    }
    text.push_str("\n");
}
