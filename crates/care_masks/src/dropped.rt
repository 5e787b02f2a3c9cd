//! Where a move changes its table's value, in a block of which it is known where the rows of each table
//! overlap. A move that drops a row or a literal then costs that row alone, and not its table.
ghost use Rattle.std.specs.Prelude.{◌≡◌, ◌↔◌, ◌<◌, ℕ, Bool, List, length, remove, slice_set, IsTrue, All};
ghost use Rattle.std.specs.Prelude.{Contains};
ghost use Rattle.semantics.specs.declared.mark.Mark.TheVariants.{Dash};
ghost use Rattle.semantics.specs.Net.{signal_count, table_count};
ghost use Rattle.semantics.specs.Value.{table_value};
ghost use Rattle.lane_bits.specs.Rows.{turned};
ghost use Rattle.chain_semantics.specs.Moves.{moves_of, row_at};
ghost use Rattle.chain_semantics.specs.Care.{Changes};
ghost use Rattle.net_core.specs.Built.{IsBuilt};
ghost use Rattle.lane_nets.specs.Words.{word_bit, values_at, HasValues};
ghost use Rattle.care_masks.specs.Overlaps.{rows_overlap, AreOverlapsOf};

use crate::differences::difference_word;
use crate::moved_values::row_without;
use chain_semantics::moves::Move;
use lane_nets::table_words::{plane_word, row_word};
use net_core::net::Net;
use net_core::table::Table;

/// Where a table's value changes without one of its rows: where that row matches, and the table's rows do not
/// overlap.
fn lone_row_word(table: &Table, row: usize, words: &[u64], overlap: u64) -> u64
    requires within { row < length table.now.rows }
    requires pins_in { All (λ s. s < length words.now) table.now.pins }
    ensures { (b : ℕ) → b < 64 → word_bit overlap b ≡ rows_overlap table.now (values_at words.now b)
        → word_bit result b ≡ turned (table_value table.now (values_at words.now b))
        (table_value (record table.now { rows = remove table.now.rows row }) (values_at words.now b)) }
{
    let rows = table.rows().as_slice();
    let pins = table.pins().as_slice();
    let marks = rows[row].as_slice();
    row_word(marks, pins, words) & !overlap
}

/// Where a table's value changes without one of its literals: where no row matches, and the literal's row
/// would without it. The table's own value is `value`.
fn missed_literal_word(table: &Table, row: usize, pin: usize, words: &[u64], value: u64) -> u64
    requires row { row < length table.now.rows }
    requires pin { pin < length (row_at table.now.rows row) }
    requires pins_in { All (λ s. s < length words.now) table.now.pins }
    ensures { (b : ℕ) → b < 64 → word_bit value b ≡ table_value table.now (values_at words.now b)
        → word_bit result b ≡ turned (table_value table.now (values_at words.now b))
        (table_value (record table.now
        { rows = slice_set table.now.rows row (slice_set (row_at table.now.rows row) pin Dash) })
        (values_at words.now b)) }
{
    let rows = table.rows().as_slice();
    let pins = table.pins().as_slice();
    let marks = rows[row].as_slice();
    let matched = plane_word(table.plane(), value);
    row_without(marks, pins, pin, words) & !matched
}

/// Where the move changes its table's value, in one block.
pub(crate) fn block_difference(net: &Net, a_move: Move, words: &[u64], overlaps: &[u64]) -> u64
    requires offered { Contains (moves_of net.now) a_move }
    requires room { length words.now ≡ signal_count net.now }
    requires overlaps_room { length overlaps.now ≡ table_count net.now }
    ensures bits { AreOverlapsOf net.now words.now overlaps.now → (b : ℕ) (x : List Bool) → b < 64
        → HasValues net.now words.now b x → IsTrue (word_bit result b) ↔ Changes net.now a_move x }
    ensures built { IsBuilt net.now }
{
    let inputs = net.inputs();
    match a_move {
        Move::DropRow { t, row } => {
            lone_row_word(net.table(t), row as usize, words, overlaps[t as usize])
        }
        Move::DropLiteral { t, row, pin } => {
            let value = words[(inputs + t) as usize];
            missed_literal_word(net.table(t), row as usize, pin as usize, words, value)
        }
        _ => difference_word(net, a_move, words),
    }
}
