//! The net after a move: the moved table is made anew. The other tables are copied into a new net, or the
//! move is made in the net itself and can be taken back.
ghost use Rattle.std.specs.Prelude.{◌≡◌, ◌<◌, [], ◌∷◌, true, false, not, length, slice_index_or, remove};
ghost use Rattle.std.specs.Prelude.{slice_set, IfOk, OnOk, OnErr, All, Contains};
ghost use Rattle.semantics.specs.declared.mark.Mark.TheVariants.{Dash};
ghost use Rattle.chain_semantics.specs.Moves.{moves_of, table_of, moved_table, moved, copy_mark, row_at};
ghost use Rattle.semantics.specs.Net.{NetValue, table_at};
ghost use Rattle.net_moves.specs.Fitting.{Fits};
ghost use Rattle.net_moves.specs.Made.{IsMadeIn};

use chain_semantics::moves::Move;
use net_core::items::{Items, RowList, Signal};
use net_core::mark::Mark;
use net_core::name::Name;
use net_core::net::Net;
use net_core::row::{Row, rows_of};
use net_core::table::{Table, constant_table};
use std::alloc::{AllocError, Global};

/// Copies of all rows but one.
fn without_row(alloc: Global, rows: &[Row], row: usize) -> Result<RowList, AllocError>
    requires { row < length rows.now }
    ensures { IfOk result (λ kept. kept ≡ remove rows.now row) }
{
    let mut kept = Items::from_slice(alloc, &rows[..row])?;
    kept.push_copies(&rows[row + 1..])?;
    Ok(kept)
}

/// The row with a dash at one pin.
fn without_literal(alloc: Global, marks: &[Mark], pin: usize) -> Result<Row, AllocError>
    requires { pin < length marks.now }
    ensures { IfOk result (λ row. row ≡ slice_set marks.now pin Dash) }
{
    let mut row = Row::new(alloc);
    for (i, mark) in marks.iter().enumerate() {
        row.push(if i == pin { Mark::Dash } else { *mark })?;
    }
    Ok(row)
}

/// The mark that asks for a pin's value as it is, or turned over.
fn copy_mark(flip: bool) -> Mark
    ensures { result ≡ copy_mark flip }
{
    if flip { Mark::Zero } else { Mark::One }
}

/// The table of one pin that copies a signal, or its opposite.
fn copy_table(alloc: Global, name: Name, s: Signal, flip: bool) -> Result<Table, AllocError>
    ensures { IfOk result
        (λ t. t ≡ record { name = name; pins = s ∷ []; rows = (copy_mark flip ∷ []) ∷ []; plane = true }) }
{
    let pins = Items::from_slice(alloc, &[s])?;
    let rows = rows_of(alloc, &[[copy_mark(flip)]])?;
    Ok(Table::new(name, pins, rows, true))
}

/// The table of two pins that is their conjunction, each pin plain or turned over, or the opposite of that
/// conjunction.
fn pair_table(
    alloc: Global,
    name: Name,
    signals: [Signal; 2],
    flips: [bool; 2],
    flip: bool,
) -> Result<Table, AllocError>
    ensures { IfOk result
        (λ t. t ≡ record {
          name = name;
          pins = signals;
          rows = (copy_mark (slice_index_or flips 0 false) ∷ copy_mark (slice_index_or flips 1 false) ∷ [])
              ∷ [];
          plane = not flip;
        }) }
{
    let pins = Items::from_slice(alloc, &signals)?;
    let rows = rows_of(alloc, &[[copy_mark(flips[0]), copy_mark(flips[1])]])?;
    Ok(Table::new(name, pins, rows, !flip))
}

/// The table with other rows.
fn with_rows(table: &Table, rows: RowList) -> Result<Table, AllocError>
    requires widths { All (λ marks. length marks ≡ length table.now.pins) rows }
    requires full { 0 < length rows }
    ensures { IfOk result (λ t. t ≡ record table.now { rows = rows }) }
{
    Ok(Table::new(
        table.name().copy()?,
        table.pins().copy()?,
        rows,
        table.plane(),
    ))
}

/// What a move makes of its table.
fn moved_table(alloc: Global, table: &Table, a_move: Move) -> Result<Table, AllocError>
    requires { Fits table.now a_move }
    ensures { IfOk result (λ t. t ≡ moved_table table.now a_move) }
{
    match a_move {
        Move::Const { value, .. } => constant_table(alloc, table.name().copy()?, value),
        Move::DropRow { row, .. } => {
            let rows = without_row(alloc, table.rows().as_slice(), row as usize)?;
            with_rows(table, rows)
        }
        Move::DropLiteral { row, pin, .. } => {
            let marks = table.rows().get(row as usize).as_slice();
            let changed = without_literal(alloc, marks, pin as usize)?;
            with_rows(table, table.rows().copy_with(row as usize, changed)?)
        }
        Move::Signal { s, flip, .. } => copy_table(alloc, table.name().copy()?, s, flip),
        Move::Pair {
            s,
            flip_s,
            u,
            flip_u,
            flip,
            ..
        } => pair_table(alloc, table.name().copy()?, [s, u], [flip_s, flip_u], flip),
    }
}

/// The table that a move changes.
pub fn table_of(a_move: Move) -> u32
    ensures { result ≡ table_of a_move }
{
    match a_move {
        Move::Const { t, .. } => t,
        Move::DropRow { t, .. } => t,
        Move::DropLiteral { t, .. } => t,
        Move::Signal { t, .. } => t,
        Move::Pair { t, .. } => t,
    }
}

/// The net after one of its moves. Nothing is tidied.
pub fn apply(alloc: Global, net: &Net, a_move: Move) -> Result<Net, AllocError>
    requires { Contains (moves_of net.now) a_move }
    ensures { IfOk result (λ n. n ≡ moved net.now a_move) }
{
    net.see_sound();
    let t = table_of(a_move);
    let table = moved_table(alloc, net.table(t), a_move)?;
    net.with_table(t, table)
}

/// Makes one of a net's moves in the net, and returns the table that stood there. No other table is touched,
/// and nothing is tidied. Where memory is wanting, the net stays as it was.
pub fn make(alloc: Global, net: &mut Net, a_move: Move) -> Result<Table, AllocError>
    requires { Contains (moves_of net.old) a_move }
    ensures ok { OnOk result (net.new ≡ moved net.old a_move) }
    ensures err { OnErr result (net.new ≡ net.old) }
    ensures taken { IfOk result (λ table. table ≡ table_at net.old.tables (table_of a_move)) }
{
    net.see_sound();
    let t = table_of(a_move);
    let table = moved_table(alloc, net.table(t), a_move)?;
    net.exchange_table(t, table)
}

/// Takes back a move that was made in a net: puts back the table that stood there. Where memory is wanting,
/// the net stays as it was.
pub fn take_back(net: &mut Net, a_move: Move, table: Table) -> Result<(), AllocError>
    requires { (before : NetValue) × IsMadeIn before a_move table net.old }
    ensures ok { OnOk result ((before : NetValue) → IsMadeIn before a_move table net.old → net.new ≡ before) }
    ensures err { OnErr result (net.new ≡ net.old) }
{
    net.exchange_table(table_of(a_move), table)?;
    Ok(())
}
