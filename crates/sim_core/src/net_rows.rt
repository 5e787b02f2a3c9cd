//! The rows of a net's signals at many patterns, and the rows where a table is turned over. Nothing here
//! takes memory.
ghost use Rattle.std.specs.Prelude.{◌≡◌, ◌↔◌, ◌==◌, ◌&&◌, ◌<◌, ◌≤◌, not, ℕ, List, Bool, false, length};
ghost use Rattle.std.specs.Prelude.{slice_index_or, slice_set, IsTrue, All};
ghost use Rattle.semantics.specs.Net.{input_count, table_count, signal_count};
ghost use Rattle.semantics.specs.Value.{value_of};
ghost use Rattle.semantics.specs.Dependence.{DependsOn};
ghost use Rattle.lane_bits.specs.Rows.{word_count};
ghost use Rattle.sim_core.specs.NetRows.{row_at, AreWide, HaveRows, HaveFlipped, FitsRoom, IsTableRow};
ghost use Rattle.sim_core.specs.NetRows.{IsOppositeRow, AreKept};

use crate::covers::set_cover;
use crate::signal_row::SignalRow;
use lane_bits::patterns::Patterns;
use net_core::net::Net;
use net_core::table::Table;

/// Room to compute the row of a table: the bits where one row matches, and the bits where some row matches.
#[derive(Drop)]
pub(crate) struct Room {
    pub(crate) cube: SignalRow,
    pub(crate) cover: SignalRow,
}

/// Sets the row of signal `s` to the values of a table.
fn set_table_row(table: &Table, rows: &mut [SignalRow], s: usize, count: u64, room: &mut Room)
    requires pins_in { All (λ p. p < length rows.old) table.now.pins }
    requires signal { s < length rows.old }
    requires wide { AreWide (word_count count) rows.old }
    requires room { FitsRoom count room.old }
    ensures room { FitsRoom count room.new }
    ensures row { IsTableRow table.now count rows.old (row_at rows.new s) }
    ensures others { rows.new ≡ slice_set rows.old s (row_at rows.new s) }
{
    let cubes = table.rows().as_slice();
    let pins = table.pins().as_slice();
    set_cover(&mut room.cover, &mut room.cube, cubes, pins, rows);
    rows[s].set(room.cover.as_slice(), !table.plane(), count);
}

/// Turns over the bits of the row of signal `s`.
fn flip_row(rows: &mut [SignalRow], s: usize, count: u64, room: &mut Room)
    requires signal { s < length rows.old }
    requires wide { AreWide (word_count count) rows.old }
    requires room { FitsRoom count room.old }
    ensures room { FitsRoom count room.new }
    ensures row { IsOppositeRow count (row_at rows.old s) (row_at rows.new s) }
    ensures others { rows.new ≡ slice_set rows.old s (row_at rows.new s) }
{
    room.cover.copy(rows[s].as_slice());
    rows[s].set(room.cover.as_slice(), true, count);
}

/// Sets the rows of the inputs.
pub(crate) fn set_input_rows(rows: &mut [SignalRow], patterns: &Patterns)
    requires room { patterns.now.inputs ≤ length rows.old }
    requires wide { AreWide (word_count (length patterns.now.vectors)) rows.old }
    ensures wide { AreWide (word_count (length patterns.now.vectors)) rows.new }
    ensures rows { HaveRows patterns.now.vectors (λ x s. slice_index_or x s false) patterns.now.inputs
        rows.new }
{
    for i in 0..patterns.inputs() {
        rows[i as usize].copy(patterns.row(i));
    }
}

/// Computes the rows of the tables from those of the inputs, which stay.
pub(crate) fn eval_rows(net: &Net, count: u64, rows: &mut [SignalRow], room: &mut Room)
    requires rows { length rows.old ≡ signal_count net.now }
    requires wide { AreWide (word_count count) rows.old }
    requires room { FitsRoom count room.old }
    ensures room { FitsRoom count room.new }
    ensures wide { AreWide (word_count count) rows.new }
    ensures rows { (vectors : List (List Bool)) → length vectors ≡ count
        → HaveRows vectors (λ x s. slice_index_or x s false) (input_count net.now) rows.old
        → HaveRows vectors (value_of (input_count net.now) net.now.tables) (signal_count net.now) rows.new }
{
    let inputs = net.inputs() as usize;
    for i in net.order() {
        set_table_row(net.table(*i), rows, inputs + *i as usize, count, room);
    }
}

/// Makes the marked rows equal to the signals' rows again; the other rows are so already.
pub(crate) fn restore_rows(flipped: &mut [SignalRow], marks: &[bool], rows: &[SignalRow])
    requires { (count : ℕ) × AreKept count rows.now flipped.old marks.now }
    ensures { flipped.new ≡ rows.now }
{
    for (s, row) in rows.iter().enumerate() {
        if marks[s] {
            flipped[s].copy(row.as_slice());
        }
    }
}

/// Whether the row of table `i` is computed again: not for table `t` itself, and else where table `i` is
/// marked.
fn is_found_again(i: u32, t: u32, marked: bool) -> bool
    ensures { result ≡ (not (i == t) && marked) }
{
    i != t && marked
}

/// Turns over the row of table `t`, and computes again the rows of the tables that depend on it, which are
/// marked.
pub(crate) fn flip_rows(
    net: &Net,
    t: u32,
    marks: &[bool],
    count: u64,
    rows: &mut [SignalRow],
    room: &mut Room,
)
    requires table { t < table_count net.now }
    requires marks_room { length marks.now ≡ signal_count net.now }
    requires marks { (s : ℕ) → s < signal_count net.now → IsTrue (slice_index_or marks.now s false)
        ↔ DependsOn (input_count net.now) net.now.tables t s }
    requires rows { length rows.old ≡ signal_count net.now }
    requires wide { AreWide (word_count count) rows.old }
    requires room { FitsRoom count room.old }
    ensures room { FitsRoom count room.new }
    ensures wide { AreWide (word_count count) rows.new }
    ensures others { (s : ℕ) → s < signal_count net.now → slice_index_or marks.now s false ≡ false
        → row_at rows.new s ≡ row_at rows.old s }
    ensures flipped { (vectors : List (List Bool)) → length vectors ≡ count
        → HaveRows vectors (value_of (input_count net.now) net.now.tables) (signal_count net.now) rows.old
        → HaveFlipped net.now vectors t rows.new }
{
    let inputs = net.inputs() as usize;
    flip_row(rows, inputs + t as usize, count, room);
    for i in net.order() {
        let s = inputs + *i as usize;
        if is_found_again(*i, t, marks[s]) {
            set_table_row(net.table(*i), rows, s, count, room);
        }
    }
}
