//! Where the rows of tables match, at many patterns: a row of bits for each signal.
ghost use Rattle.std.specs.Prelude.{◌≡◌, ◌*◌, ◌<◌, ◌&&◌, ℕ, length, All};
ghost use Rattle.std.specs.List.{list_any};
ghost use Rattle.semantics.specs.Value.{mark_matches, row_matches};
ghost use Rattle.lane_bits.specs.Rows.{row_bit};
ghost use Rattle.sim_core.specs.NetRows.{values_of, AreWide};

use crate::signal_row::SignalRow;
use net_core::items::Signal;
use net_core::mark::Mark;
use net_core::row::Row;

/// Keeps the bits at which a pin's value is as the mark asks.
fn keep_marked(cube: &mut SignalRow, mark: Mark, row: &[u64])
    requires { length row.now ≡ length cube.old }
    ensures same { length cube.new ≡ length cube.old }
    ensures bits { (p : ℕ) → p < 64 * length cube.old
        → row_bit cube.new p ≡ (row_bit cube.old p && mark_matches mark (row_bit row.now p)) }
{
    match mark {
        Mark::Zero => cube.keep(row, true),
        Mark::One => cube.keep(row, false),
        Mark::Dash => {}
    }
}

/// Makes the bits of `cube` 1 where a row matches.
fn set_cube(cube: &mut SignalRow, marks: &[Mark], pins: &[Signal], rows: &[SignalRow])
    requires widths { length marks.now ≡ length pins.now }
    requires pins_in { All (λ s. s < length rows.now) pins.now }
    requires wide { AreWide (length cube.old) rows.now }
    ensures same { length cube.new ≡ length cube.old }
    ensures bits { (p : ℕ) → p < 64 * length cube.old
        → row_bit cube.new p ≡ row_matches marks.now pins.now (values_of rows.now p) }
{
    cube.fill(true);
    for (i, mark) in marks.iter().enumerate() {
        keep_marked(cube, *mark, rows[pins[i] as usize].as_slice());
    }
}

/// Makes the bits of `cover` 1 where some row matches. `cube` is used for the bits where each single row
/// matches.
pub(crate) fn set_cover(
    cover: &mut SignalRow,
    cube: &mut SignalRow,
    cubes: &[Row],
    pins: &[Signal],
    rows: &[SignalRow],
)
    requires widths { All (λ marks. length marks ≡ length pins.now) cubes.now }
    requires pins_in { All (λ s. s < length rows.now) pins.now }
    requires cube { length cube.old ≡ length cover.old }
    requires wide { AreWide (length cover.old) rows.now }
    ensures cube { length cube.new ≡ length cube.old }
    ensures same { length cover.new ≡ length cover.old }
    ensures bits { (p : ℕ) → p < 64 * length cover.old
        → row_bit cover.new p ≡ list_any (λ marks. row_matches marks pins.now (values_of rows.now p))
        cubes.now }
{
    cover.fill(false);
    for row in cubes {
        set_cube(cube, row.as_slice(), pins, rows);
        cover.join(cube.as_slice());
    }
}
