//! Where the rules on one table apply, by its pins and rows.
ghost use Rattle.std.specs.Prelude.{◌≡◌, ◌==◌, ◌&&◌, ◌||◌, not, map, length, take, slice_index};
ghost use Rattle.std.specs.List.{list_any, list_all};
ghost use Rattle.semantics.specs.Net.{row_literals};
ghost use Rattle.chain_semantics.specs.TidyRules.{is_empty, has, first_from, mark_at, is_dash};
ghost use Rattle.chain_semantics.specs.TidyRules.{first_place_of, is_canonical_rows, is_one_literal};
ghost use Rattle.net_tidy.specs.Rule.{is_alone, rule_by};

use crate::marks::{Marked, mark_at};
use crate::rule::Rule;
use net_core::items::Signal;
use net_core::mark::Mark;
use net_core::table::{is_literal, row_literals};

/// Whether a signal is among these.
pub(crate) fn has(signals: &[Signal], s: Signal) -> bool
    ensures { result ≡ has signals.now s }
{
    signals.contains(&s)
}

/// Whether each row has a dash at pin `q`.
fn all_dashes<R: Marked>(rows: &[R], q: usize) -> bool
    ensures { result ≡ list_all (λ row. is_dash (mark_at (R.marks row) q)) rows.now }
{
    rows.iter().all(|row| !is_literal(mark_at(row.marks(), q)))
}

/// Whether there is a row, and each row has a dash at pin `q`.
#[tactic(auto, using(crate::proofs::First::is_empty_length))]
fn is_dashed<R: Marked>(rows: &[R], q: usize) -> bool
    ensures { result ≡ (not (is_empty rows.now)
        && list_all (λ row. is_dash (mark_at (R.marks row) q)) rows.now) }
{
    !rows.is_empty() && all_dashes(rows, q)
}

/// The first of `pins` pins that has a dash in every row, where there is a row.
pub(crate) fn dashed_pin<R: Marked>(pins: usize, rows: &[R]) -> Option<usize>
    ensures { result
        ≡ first_from (λ q. not (is_empty rows.now)
        && list_all (λ row. is_dash (mark_at (R.marks row) q)) rows.now) 0 pins }
{
    for q in 0..pins {
        if is_dashed(rows, q) {
            return Some(q);
        }
    }
    None
}

/// The first pin that has the signal of an earlier pin.
pub(crate) fn repeated_pin(pins: &[Signal]) -> Option<usize>
    ensures { result ≡ first_from (λ q. has (take q pins.now) (slice_index pins.now q)) 0 (length pins.now) }
{
    for q in 0..pins.len() {
        if has(&pins[..q], pins[q]) {
            return Some(q);
        }
    }
    None
}

/// The place of the first pin that reads signal `s`; where there is none, the number of pins.
pub(crate) fn first_place(pins: &[Signal], s: Signal) -> usize
    ensures { result ≡ first_place_of pins.now s }
{
    for (i, pin) in pins.iter().enumerate() {
        if s == *pin {
            return i;
        }
    }
    pins.len()
}

/// Whether the rows are those of a canonical constant.
fn is_canonical_rows<R: Marked>(rows: &[R]) -> bool
    ensures { result ≡ is_canonical_rows (map R.marks rows.now) }
{
    match rows.len() {
        0 => true,
        1 => rows[0].marks().is_empty(),
        _ => false,
    }
}

/// Whether some row has no literal.
fn has_free_row<R: Marked>(rows: &[R]) -> bool
    ensures { result ≡ list_any (λ row. row_literals (R.marks row) == 0) rows.now }
{
    rows.iter().any(|row| row_literals(row.marks()) == 0)
}

/// Whether the pins, rows and plane are those of a constant that is not canonical.
#[tactic(auto, using(crate::proofs::First::is_empty_length))]
fn is_constant<R: Marked>(pins: &[Signal], rows: &[R], plane: bool) -> bool
    ensures { result ≡ (not (is_empty pins.now && plane && is_canonical_rows (map R.marks rows.now))
        && (is_empty rows.now || list_any (λ row. row_literals (R.marks row) == 0) rows.now)) }
{
    !(pins.is_empty() && plane && is_canonical_rows(rows))
        && (rows.is_empty() || has_free_row(rows))
}

/// Whether the row has one mark, and this is a literal.
fn is_alone(marks: &[Mark]) -> bool
    ensures { result ≡ is_alone marks.now }
{
    marks.len() == 1 && is_literal(marks[0])
}

/// Whether there are one pin and one row, whose mark is a literal.
fn is_one_literal<R: Marked>(pins: &[Signal], rows: &[R]) -> bool
    ensures { result ≡ is_one_literal pins.now (map R.marks rows.now) }
{
    pins.len() == 1 && rows.len() == 1 && is_alone(rows[0].marks())
}

/// The first rule that applies, by the first pin that reads a constant, by the parts of the table, by whether
/// the table is an output, and by whether some table reads it.
pub(crate) fn rule_by<R: Marked>(
    constant: Option<usize>,
    pins: &[Signal],
    rows: &[R],
    plane: bool,
    output: bool,
    read: bool,
) -> Option<Rule>
    ensures { result ≡ rule_by R.marks constant pins.now rows.now plane output read }
{
    if let Some(q) = constant {
        return Some(Rule::ConstantPin(q));
    }
    if let Some(q) = dashed_pin(pins.len(), rows) {
        return Some(Rule::DashedPin(q));
    }
    if let Some(q) = repeated_pin(pins) {
        return Some(Rule::RepeatedPin(q));
    }
    if is_constant(pins, rows, plane) {
        return Some(Rule::Constant);
    }
    if output {
        None
    } else if !read {
        Some(Rule::Removal)
    } else if is_one_literal(pins, rows) {
        Some(Rule::Bypass)
    } else {
        None
    }
}
