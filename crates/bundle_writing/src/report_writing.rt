//! The text of a report, made on the stack.
ghost use Rattle.std.specs.Prelude.{◌≡◌, ◌+◌, ◌≤◌, [], ◌∷◌, ◌++◌, length, codes, decimal};
ghost use Rattle.semantics.specs.Texts.{bits_word, line_text};
ghost use Rattle.job_semantics.specs.Report.{yes_word};
ghost use Rattle.bundle_writing.specs.declared.report_lines.TheConstants.{REPORT_LIMIT};
ghost use Rattle.bundle_writing.specs.Value.{report_of_bundle};

use crate::bundle::Bundle;
use crate::report_lines::{ReportText, add_metric, add_number, add_word, version_word};
use itoa::Buffer;

/// Adds a line of a key and two numbers.
fn add_numbers(text: &mut ReportText, key: &str, old: u64, new: u64)
    requires { length text.old.bytes + length key.now + 83 ≤ REPORT_LIMIT }
    ensures bytes { text.new.bytes
        ≡ text.old.bytes ++ line_text (key.now ∷ decimal old ∷ decimal new ∷ []) }
    ensures len { length text.new.bytes ≤ length text.old.bytes + length key.now + 83 }
{
    let mut old_digits = Buffer::new();
    let mut new_digits = Buffer::new();
    text.push_str(key);
    text.push_str(" ");
    text.push_str(old_digits.format(old));
    text.push_str(" ");
    text.push_str(new_digits.format(new));
    text.push_str("\n");
}

/// Adds one digit for each bit, in their order.
fn add_bits(text: &mut ReportText, bits: &[bool])
    requires { length text.old.bytes + length bits.now ≤ REPORT_LIMIT }
    ensures bytes { text.new.bytes ≡ text.old.bytes ++ bits_word bits.now }
    ensures len { length text.new.bytes ≡ length text.old.bytes + length bits.now }
{
    for bit in bits {
        text.push_str(if *bit { "1" } else { "0" });
    }
}

/// Adds the line of the witness.
fn add_witness(text: &mut ReportText, bits: &[bool])
    requires { length text.old.bytes + length bits.now + 9 ≤ REPORT_LIMIT }
    ensures bytes { text.new.bytes ≡ text.old.bytes ++ line_text (codes "witness" ∷ bits_word bits.now ∷ []) }
    ensures len { length text.new.bytes ≡ length text.old.bytes + length bits.now + 9 }
{
    text.push_str("witness ");
    add_bits(text, bits);
    text.push_str("\n");
}

/// The word of an answer.
fn yes_word(yes: bool) -> &'static str
    ensures word { result.now ≡ yes_word yes }
    ensures len { length result.now ≤ 3 }
{
    if yes { "yes" } else { "no" }
}

/// The eight lines of a bundle's report.
pub(crate) fn report(b: &Bundle) -> ReportText
    ensures { result.bytes ≡ report_of_bundle b.now }
{
    let mut text = ReportText::new();
    add_word(&mut text, "salsa", version_word(b.version));
    add_metric(&mut text, b.metric);
    add_number(&mut text, "bound", b.bound);
    add_number(&mut text, "maximum", b.maximum);
    add_witness(&mut text, b.witness.as_slice());
    add_numbers(
        &mut text,
        "tables",
        b.exact.tables().into(),
        b.approx.tables().into(),
    );
    add_numbers(
        &mut text,
        "literals",
        b.exact.literals(),
        b.approx.literals(),
    );
    add_word(&mut text, "minimal", yes_word(b.minimal));
    text
}
