//! The diagram that says whether some row of a table matches, by splits: pin by pin, and first the pin whose
//! diagram chooses by the least variable. So fewer nodes are made in vain than by conjunctions and
//! disjunctions of rows.
//!
//! The values that were chosen for the pins are held as a row of marks, with a dash for each pin without a
//! chosen value.
ghost use Rattle.std.specs.Prelude.{◌≡◌, ℕ, ◌<◌, true, false, Bool, List, replicate, length, slice_index_or};
ghost use Rattle.std.specs.Prelude.{All, IfOk, IfSome, OnOk};
ghost use Rattle.semantics.specs.declared.mark.Mark.TheVariants.{Zero, Dash};
ghost use Rattle.semantics.specs.Value.{Assignment, mark_matches, row_matches};
ghost use Rattle.bdd_core.specs.Diagrams.{Grows};
ghost use Rattle.bdd_nets.specs.Tables.{IsSomeRowOf};
ghost use Rattle.bdd_nets.specs.Splits.{IsSettled, IsSplitOver};

use bdd_core::diagrams::Diagrams;
use bdd_core::node::Diagram;
use bdd_core::stop::Stop;
use net_core::items::Signal;
use net_core::mark::Mark;
use net_core::row::Row;
use std::alloc::Global;

/// Whether a mark asks for the opposite of the value that was chosen for its pin.
#[inline]
fn is_opposite(mark: Mark, chosen: Mark) -> bool
    ensures { result ≡ true → (bit : Bool) → mark_matches chosen bit ≡ true → mark_matches mark bit ≡ false }
{
    matches!(
        (mark, chosen),
        (Mark::Zero, Mark::One) | (Mark::One, Mark::Zero)
    )
}

/// Whether a mark is a dash or asks for the value that was chosen for its pin.
#[inline]
fn is_implied(mark: Mark, chosen: Mark) -> bool
    ensures { result ≡ true → (bit : Bool) → mark_matches chosen bit ≡ true → mark_matches mark bit ≡ true }
{
    matches!(
        (mark, chosen),
        (Mark::Dash, _) | (Mark::Zero, Mark::Zero) | (Mark::One, Mark::One)
    )
}

/// Whether a row asks some pin for the opposite of the value that was chosen for it.
fn clashes(marks: &[Mark], chosen: &[Mark]) -> bool
    requires { length marks.now ≡ length chosen.now }
    ensures { result ≡ true → (pins : List ℕ) (v : Assignment) → length pins ≡ length chosen.now
        → row_matches chosen.now pins v ≡ true → row_matches marks.now pins v ≡ false }
{
    for (i, mark) in marks.iter().enumerate() {
        if is_opposite(*mark, chosen[i]) {
            return true;
        }
    }
    false
}

/// Whether a row asks only for values that were chosen.
fn follows(marks: &[Mark], chosen: &[Mark]) -> bool
    requires { length marks.now ≡ length chosen.now }
    ensures { result ≡ true → (pins : List ℕ) (v : Assignment) → length pins ≡ length chosen.now
        → row_matches chosen.now pins v ≡ true → row_matches marks.now pins v ≡ true }
{
    for (i, mark) in marks.iter().enumerate() {
        if !is_implied(*mark, chosen[i]) {
            return false;
        }
    }
    true
}

/// Whether some row matches, where the chosen values decide this.
fn settled(rows: &[Row], chosen: &[Mark]) -> Option<bool>
    requires { All (λ marks. length marks ≡ length chosen.now) rows.now }
    ensures { IfSome result (IsSettled rows.now chosen.now) }
{
    let mut possible = false;
    for row in rows {
        let marks = row.as_slice();
        if follows(marks, chosen) {
            return Some(true);
        }
        possible = possible || !clashes(marks, chosen);
    }
    if possible { None } else { Some(false) }
}

/// The pin, among those without a chosen value, whose diagram chooses by the least variable.
fn next_pin(d: &Diagrams, chosen: &[Mark], pins: &[Signal], signals: &[Diagram]) -> Option<usize>
    requires widths { length chosen.now ≡ length pins.now }
    requires pins { All (λ s. s < length signals.now) pins.now }
    requires signals { All (λ f. f < length d.now) signals.now }
    ensures { IfSome result (λ p. slice_index_or chosen.now p Zero ≡ Dash) }
{
    let mut next = None;
    let mut least = u32::MAX;
    for (p, mark) in chosen.iter().enumerate() {
        if let Mark::Dash = *mark {
            let variable = d.first_variable(signals[pins[p] as usize]);
            if variable <= least {
                next = Some(p);
                least = variable;
            }
        }
    }
    next
}

/// The diagram that is true where some row matches and the pins have the chosen values, by at most `splits`
/// splits one below another.
fn split(
    d: &mut Diagrams,
    splits: u32,
    rows: &[Row],
    pins: &[Signal],
    signals: &[Diagram],
    chosen: &mut [Mark],
) -> Result<Diagram, Stop>
    requires widths { All (λ marks. length marks ≡ length pins.now) rows.now }
    requires chosen { length chosen.old ≡ length pins.now }
    requires pins { All (λ s. s < length signals.now) pins.now }
    requires signals { All (λ f. f < length d.old) signals.now }
    ensures grows { Grows d.old d.new }
    ensures same { OnOk result (chosen.new ≡ chosen.old) }
    ensures ok { IfOk result (IsSplitOver d.new
        (record { rows = rows.now; pins = pins.now; signals = signals.now }) chosen.old) }
{
    d.are_diagrams();
    if let Some(some) = settled(rows, chosen) {
        return Ok(if some { 1 } else { 0 });
    }
    let Some(p) = next_pin(d, chosen, pins, signals) else {
        return Err(Stop::Spent);
    };
    if splits == 0 {
        return Err(Stop::Spent);
    }
    let pin = signals[pins[p] as usize];
    chosen[p] = Mark::Zero;
    let low = split(d, splits - 1, rows, pins, signals, chosen)?;
    chosen[p] = Mark::One;
    let high = split(d, splits - 1, rows, pins, signals, chosen)?;
    chosen[p] = Mark::Dash;
    d.ite(pin, high, low)
}

/// The diagram that is true where some row matches.
pub fn split_rows(
    alloc: Global,
    d: &mut Diagrams,
    rows: &[Row],
    pins: &[Signal],
    signals: &[Diagram],
) -> Result<Diagram, Stop>
    requires widths { All (λ marks. length marks ≡ length pins.now) rows.now }
    requires pins { All (λ s. s < length signals.now) pins.now }
    requires signals { All (λ f. f < length d.old) signals.now }
    ensures grows { Grows d.old d.new }
    ensures ok { IfOk result (IsSomeRowOf d.new rows.now pins.now signals.now) }
{
    d.are_diagrams();
    let mut chosen = vec![in alloc; Mark::Dash; pins.len()]?;
    split(d, u32::MAX, rows, pins, signals, &mut chosen)
}
