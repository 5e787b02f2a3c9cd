//! The values of tables at 64 patterns at a time.
ghost use Rattle.std.specs.Prelude.{◌≡◌, ◌<◌, ◌||◌, ℕ, true, false, length, slice_index, All, if◌then◌else◌};
ghost use Rattle.std.specs.Prelude.{not};
ghost use Rattle.std.specs.List.{list_any};
ghost use Rattle.semantics.specs.Value.{mark_matches, row_matches, table_value};
ghost use Rattle.lane_nets.specs.Words.{word_bit, values_at};

use net_core::items::Signal;
use net_core::mark::Mark;
use net_core::row::Row;
use net_core::table::Table;

/// The lanes where a pin's value is as the mark asks.
fn mark_word(mark: Mark, word: u64) -> u64
    ensures { (b : ℕ) → b < 64 → word_bit result b ≡ mark_matches mark (word_bit word b) }
{
    match mark {
        Mark::Zero => !word,
        Mark::One => word,
        Mark::Dash => u64::MAX,
    }
}

/// The lanes where a row matches.
pub fn row_word(marks: &[Mark], pins: &[Signal], words: &[u64]) -> u64
    requires widths { length marks.now ≡ length pins.now }
    requires pins_in { All (λ s. s < length words.now) pins.now }
    ensures { (b : ℕ) → b < 64 → word_bit result b ≡ row_matches marks.now pins.now (values_at words.now b) }
{
    let mut all = u64::MAX;
    for (i, mark) in marks.iter().enumerate() {
        all &= mark_word(*mark, words[pins[i] as usize]);
    }
    all
}

/// The lanes where some row matches.
pub fn rows_word(rows: &[Row], pins: &[Signal], words: &[u64]) -> u64
    requires widths { All (λ marks. length marks ≡ length pins.now) rows.now }
    requires pins_in { All (λ s. s < length words.now) pins.now }
    ensures { (b : ℕ) → b < 64
        → word_bit result b ≡ list_any (λ marks. row_matches marks pins.now (values_at words.now b))
        rows.now }
{
    let mut any = 0;
    for row in rows {
        any |= row_word(row.as_slice(), pins, words);
    }
    any
}

/// The plane where a bit is 1, and the opposite of the plane where it is 0.
pub fn plane_word(plane: bool, any: u64) -> u64
    ensures { (b : ℕ) → b < 64 → word_bit result b ≡ (if word_bit any b then plane else not plane) }
{
    if plane { any } else { !any }
}

/// The value of a table.
pub fn table_word(table: &Table, words: &[u64]) -> u64
    requires { All (λ s. s < length words.now) table.now.pins }
    ensures { (b : ℕ) → b < 64 → word_bit result b ≡ table_value table.now (values_at words.now b) }
{
    let any = rows_word(table.rows().as_slice(), table.pins().as_slice(), words);
    plane_word(table.plane(), any)
}
