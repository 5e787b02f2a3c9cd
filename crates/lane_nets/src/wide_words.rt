//! The values of tables and of all signals at 512 patterns at a time: eight words side by side, each with 64
//! patterns.
ghost use Rattle.std.specs.Prelude.{◌≡◌, ◌<◌, ℕ, List, Bool, true, false, length, slice_index, All};
ghost use Rattle.std.specs.Prelude.{IsTrue};
ghost use Rattle.std.specs.Prelude.{if◌then◌else◌, not, bit_and, bit_or, bit_xor};
ghost use Rattle.std.specs.List.{list_any};
ghost use Rattle.semantics.specs.Net.{signal_count};
ghost use Rattle.semantics.specs.Value.{mark_matches, row_matches, table_value};
ghost use Rattle.lane_nets.specs.Words.{word_bit, values_at, HasInputs, HasValues};
ghost use Rattle.lane_nets.specs.Wide.{lane_words};

use net_core::items::Signal;
use net_core::mark::Mark;
use net_core::net::Net;
use net_core::row::Row;
use net_core::table::Table;
use std::simd::u64x8;

/// The conjunction of two wide words.
#[inline(always)]
pub(crate) fn and_wide(a: u64x8, b: u64x8) -> u64x8
    ensures { (j : ℕ) → j < 8 → slice_index result j ≡ bit_and (slice_index a j) (slice_index b j) }
{
    a & b
}

/// The disjunction of two wide words.
#[inline(always)]
pub(crate) fn or_wide(a: u64x8, b: u64x8) -> u64x8
    ensures { (j : ℕ) → j < 8 → slice_index result j ≡ bit_or (slice_index a j) (slice_index b j) }
{
    a | b
}

/// The bits in which two wide words differ.
#[inline(always)]
pub(crate) fn xor_wide(a: u64x8, b: u64x8) -> u64x8
    ensures { (j : ℕ) → j < 8 → slice_index result j ≡ bit_xor (slice_index a j) (slice_index b j) }
{
    a ^ b
}

/// A wide word with each bit turned over.
#[inline(always)]
pub(crate) fn not_wide(a: u64x8) -> u64x8
    ensures { (j b : ℕ) → j < 8 → b < 64
        → word_bit (slice_index result j) b ≡ not (word_bit (slice_index a j) b) }
{
    !a
}

/// Whether two wide words are equal.
#[inline(always)]
pub(crate) fn are_equal(a: u64x8, b: u64x8) -> bool
    ensures { IsTrue result → (j : ℕ) → j < 8 → slice_index b j ≡ slice_index a j }
{
    xor_wide(a, b).reduce_or() == 0
}

/// Eight equal words.
#[inline(always)]
pub(crate) fn equal_words(word: u64) -> u64x8
    ensures { (j : ℕ) → j < 8 → slice_index result j ≡ word }
{
    u64x8::splat(word)
}

/// The lanes where a pin's value is as the mark asks.
fn mark_wide(mark: Mark, wide: u64x8) -> u64x8
    ensures { (j b : ℕ) → j < 8 → b < 64
        → word_bit (slice_index result j) b ≡ mark_matches mark (word_bit (slice_index wide j) b) }
{
    match mark {
        Mark::Zero => !wide,
        Mark::One => wide,
        Mark::Dash => u64x8::splat(u64::MAX),
    }
}

/// The lanes where a row matches.
fn row_wide(marks: &[Mark], pins: &[Signal], wides: &[u64x8]) -> u64x8
    requires widths { length marks.now ≡ length pins.now }
    requires pins_in { All (λ s. s < length wides.now) pins.now }
    ensures { (j b : ℕ) → j < 8 → b < 64
        → word_bit (slice_index result j) b
        ≡ row_matches marks.now pins.now (values_at (lane_words wides.now j) b) }
{
    let mut all = equal_words(u64::MAX);
    for (i, mark) in marks.iter().enumerate() {
        all = and_wide(all, mark_wide(*mark, wides[pins[i] as usize]));
    }
    all
}

/// The lanes where some row matches.
fn rows_wide(rows: &[Row], pins: &[Signal], wides: &[u64x8]) -> u64x8
    requires widths { All (λ marks. length marks ≡ length pins.now) rows.now }
    requires pins_in { All (λ s. s < length wides.now) pins.now }
    ensures { (j b : ℕ) → j < 8 → b < 64 → word_bit (slice_index result j) b
        ≡ list_any (λ marks. row_matches marks pins.now (values_at (lane_words wides.now j) b)) rows.now }
{
    let mut any = equal_words(0);
    for row in rows {
        any = or_wide(any, row_wide(row.as_slice(), pins, wides));
    }
    any
}

/// The plane where a bit is 1, and the opposite of the plane where it is 0.
fn plane_wide(plane: bool, any: u64x8) -> u64x8
    ensures { (j b : ℕ) → j < 8 → b < 64
        → word_bit (slice_index result j) b ≡ (if word_bit (slice_index any j) b then plane else not plane) }
{
    if plane { any } else { !any }
}

/// The value of a table.
fn table_wide(table: &Table, wides: &[u64x8]) -> u64x8
    requires { All (λ s. s < length wides.now) table.now.pins }
    ensures { (j b : ℕ) → j < 8 → b < 64
        → word_bit (slice_index result j) b ≡ table_value table.now (values_at (lane_words wides.now j) b) }
{
    let any = rows_wide(table.rows().as_slice(), table.pins().as_slice(), wides);
    plane_wide(table.plane(), any)
}

/// Finds the words of the tables from those of the inputs, which stay.
pub(crate) fn eval_wides(net: &Net, wides: &mut [u64x8])
    requires { length wides.old ≡ signal_count net.now }
    ensures { (j b : ℕ) (x : List Bool) → j < 8 → b < 64 → HasInputs net.now (lane_words wides.old j) b x
        → HasValues net.now (lane_words wides.new j) b x }
{
    let inputs = net.inputs() as usize;
    for i in net.order() {
        let wide = table_wide(net.table(*i), wides);
        wides[inputs + *i as usize] = wide;
    }
}
