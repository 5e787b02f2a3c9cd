//! The values that a move gives to its table, at 64 patterns at a time. No moved table is made.
ghost use Rattle.std.specs.Prelude.{◌≡◌, ◌<◌, ◌&&◌, ℕ, length, remove, slice_set, All, Contains};
ghost use Rattle.semantics.specs.declared.mark.Mark.TheVariants.{Dash};
ghost use Rattle.semantics.specs.Net.{table_at, signal_count};
ghost use Rattle.semantics.specs.Value.{row_matches, table_value};
ghost use Rattle.lane_bits.specs.Rows.{turned};
ghost use Rattle.chain_semantics.specs.Moves.{moves_of, table_of, moved_table, row_at};
ghost use Rattle.lane_nets.specs.Words.{word_bit, values_at};

use chain_semantics::moves::Move;
use lane_nets::table_words::{plane_word, row_word, rows_word};
use net_core::items::Signal;
use net_core::mark::Mark;
use net_core::net::Net;
use net_core::table::Table;

/// The value of a constant.
fn constant_word(value: bool) -> u64
    ensures { (b : ℕ) → b < 64 → word_bit result b ≡ value }
{
    if value { u64::MAX } else { 0 }
}

/// The value of a signal, or its opposite.
fn copy_word(word: u64, flip: bool) -> u64
    ensures { (b : ℕ) → b < 64 → word_bit result b ≡ turned flip (word_bit word b) }
{
    if flip { !word } else { word }
}

/// The conjunction of two values, or its opposite.
fn pair_word(first: u64, second: u64, flip: bool) -> u64
    ensures { (b : ℕ) → b < 64 → word_bit result b ≡ turned flip (word_bit first b && word_bit second b) }
{
    copy_word(first & second, flip)
}

/// The value of a table without one of its rows.
fn without_row(table: &Table, row: usize, words: &[u64]) -> u64
    requires within { row < length table.now.rows }
    requires pins_in { All (λ s. s < length words.now) table.now.pins }
    ensures { (b : ℕ) → b < 64 → word_bit result b
        ≡ table_value (record table.now { rows = remove table.now.rows row }) (values_at words.now b) }
{
    let rows = table.rows().as_slice();
    let pins = table.pins().as_slice();
    let any = rows_word(&rows[..row], pins, words) | rows_word(&rows[row + 1..], pins, words);
    plane_word(table.plane(), any)
}

/// Where a row without one of its literals matches.
pub(crate) fn row_without(marks: &[Mark], pins: &[Signal], pin: usize, words: &[u64]) -> u64
    requires widths { length marks.now ≡ length pins.now }
    requires within { pin < length marks.now }
    requires pins_in { All (λ s. s < length words.now) pins.now }
    ensures { (b : ℕ) → b < 64 → word_bit result b
        ≡ row_matches (slice_set marks.now pin Dash) pins.now (values_at words.now b) }
{
    row_word(&marks[..pin], &pins[..pin], words)
        & row_word(&marks[pin + 1..], &pins[pin + 1..], words)
}

/// The value of a table without one of its literals.
fn without_literal(table: &Table, row: usize, pin: usize, words: &[u64]) -> u64
    requires row { row < length table.now.rows }
    requires pin { pin < length (row_at table.now.rows row) }
    requires pins_in { All (λ s. s < length words.now) table.now.pins }
    ensures { (b : ℕ) → b < 64 → word_bit result b
        ≡ table_value (record table.now
        { rows = slice_set table.now.rows row (slice_set (row_at table.now.rows row) pin Dash) })
        (values_at words.now b) }
{
    let rows = table.rows().as_slice();
    let pins = table.pins().as_slice();
    let others = rows_word(&rows[..row], pins, words) | rows_word(&rows[row + 1..], pins, words);
    let changed = row_without(rows[row].as_slice(), pins, pin, words);
    plane_word(table.plane(), others | changed)
}

/// The value that a move of a net gives to its table, where the signals have these values.
pub fn moved_word(net: &Net, a_move: Move, words: &[u64]) -> u64
    requires offered { Contains (moves_of net.now) a_move }
    requires room { length words.now ≡ signal_count net.now }
    ensures { (b : ℕ) → b < 64 → word_bit result b
        ≡ table_value (moved_table (table_at net.now.tables (table_of a_move)) a_move)
        (values_at words.now b) }
{
    net.see_sound();
    match a_move {
        Move::Const { value, .. } => constant_word(value),
        Move::DropRow { t, row } => without_row(net.table(t), row as usize, words),
        Move::DropLiteral { t, row, pin } => {
            without_literal(net.table(t), row as usize, pin as usize, words)
        }
        Move::Signal { s, flip, .. } => copy_word(words[s as usize], flip),
        Move::Pair {
            s,
            flip_s,
            u,
            flip_u,
            flip,
            ..
        } => {
            let first = copy_word(words[s as usize], flip_s);
            let second = copy_word(words[u as usize], flip_u);
            pair_word(first, second, flip)
        }
    }
}
