//! The literals of rows and tables.
ghost use Rattle.std.specs.Prelude.{◌≡◌, ◌<◌, length, All, IfOk};
ghost use Rattle.aig_core.specs.Graph.{IsLiteralOf};
ghost use Rattle.aig_core.specs.Grown.{Grows};
ghost use Rattle.aig_core.specs.Tables.{IsMarked, IsRowOf, IsSomeRowOf, IsTableOf};

use crate::graph::Aig;
use crate::literal::{Literal, constant, opposite};
use net_core::items::Signal;
use net_core::mark::Mark;
use net_core::row::Row;
use net_core::table::Table;
use std::alloc::AllocError;

/// The conjunction of the literal `all` with the statement that a pin is as a mark asks.
fn with_mark(g: &mut Aig, mark: Mark, pin: Literal, all: Literal) -> Result<Literal, AllocError>
    requires pin { IsLiteralOf g.old pin }
    requires all { IsLiteralOf g.old all }
    ensures grows { Grows g.old g.new }
    ensures ok { IfOk result (IsMarked g.new mark pin all) }
{
    match mark {
        Mark::Zero => g.and(all, opposite(pin)),
        Mark::One => g.and(all, pin),
        Mark::Dash => Ok(all),
    }
}

/// The literal that is true where a row matches.
fn row_literal(
    g: &mut Aig,
    marks: &[Mark],
    pins: &[Signal],
    signals: &[Literal],
) -> Result<Literal, AllocError>
    requires widths { length marks.now ≡ length pins.now }
    requires pins { All (λ s. s < length signals.now) pins.now }
    requires signals { All (IsLiteralOf g.old) signals.now }
    ensures grows { Grows g.old g.new }
    ensures ok { IfOk result (IsRowOf g.new marks.now pins.now signals.now) }
{
    let mut all = constant(true);
    for (i, mark) in marks.iter().enumerate() {
        let pin = signals[pins[i] as usize];
        all = with_mark(g, *mark, pin, all)?;
    }
    Ok(all)
}

/// The literal that is true where some row matches.
fn some_row_literal(
    g: &mut Aig,
    rows: &[Row],
    pins: &[Signal],
    signals: &[Literal],
) -> Result<Literal, AllocError>
    requires widths { All (λ marks. length marks ≡ length pins.now) rows.now }
    requires pins { All (λ s. s < length signals.now) pins.now }
    requires signals { All (IsLiteralOf g.old) signals.now }
    ensures grows { Grows g.old g.new }
    ensures ok { IfOk result (IsSomeRowOf g.new rows.now pins.now signals.now) }
{
    let mut some = constant(false);
    for row in rows {
        let this = row_literal(g, row.as_slice(), pins, signals)?;
        some = g.or(some, this)?;
    }
    Ok(some)
}

/// The literal of a table over the literals of its pins.
pub fn table_literal(g: &mut Aig, table: &Table, signals: &[Literal]) -> Result<Literal, AllocError>
    requires pins { All (λ s. s < length signals.now) table.now.pins }
    requires signals { All (IsLiteralOf g.old) signals.now }
    ensures grows { Grows g.old g.new }
    ensures ok { IfOk result (IsTableOf g.new table.now signals.now) }
{
    let some = some_row_literal(g, table.rows().as_slice(), table.pins().as_slice(), signals)?;
    if table.plane() {
        Ok(some)
    } else {
        Ok(opposite(some))
    }
}
