//! The rows of the forms of tables, and the names of a network. Source: the gates of ripple-carry arithmetic.
ghost use Rattle.std.specs.Prelude.{◌≡◌, ◌<◌, ◌-◌, [], ◌∷◌, length, map, replicate, decimal, codes, All};
ghost use Rattle.std.specs.Prelude.{IfOk};
ghost use Rattle.std.specs.List.{range_with_len};
ghost use Rattle.quality_semantics.specs.Forms.{form};
ghost use Rattle.quality_semantics.specs.WordNets.{table_of};
ghost use Rattle.semantics.specs.declared.mark.Mark.TheVariants.{Zero, One, Dash};

use net_parts::items::{Items, NameList, RowList, SignalList};
use net_parts::mark::Mark;
use net_parts::name::Name;
use net_parts::row::Row;
use net_parts::table::Table;
use std::alloc::{AllocError, Global};

/// The opposite.
pub(crate) const INV: [[Mark; 1]; 1] = [[Mark::Zero]];

/// Whether one of two bits is 1.
pub const OR2: [[Mark; 2]; 2] = [[Mark::One, Mark::Dash], [Mark::Dash, Mark::One]];

/// Whether both bits are 1: the carry of a half adder.
pub const AND2: [[Mark; 2]; 1] = [[Mark::One, Mark::One]];

/// Whether two bits differ: the sum's bit of a half adder.
pub const XOR2: [[Mark; 2]; 2] = [[Mark::One, Mark::Zero], [Mark::Zero, Mark::One]];

/// Whether an odd number of three bits is 1: the sum's bit of a full adder.
pub const XOR3: [[Mark; 3]; 4] = [
    [Mark::One, Mark::Zero, Mark::Zero],
    [Mark::Zero, Mark::One, Mark::Zero],
    [Mark::Zero, Mark::Zero, Mark::One],
    [Mark::One, Mark::One, Mark::One],
];

/// The majority of three bits: the carry of a full adder.
pub const MAJ: [[Mark; 3]; 3] = [
    [Mark::One, Mark::One, Mark::Dash],
    [Mark::One, Mark::Dash, Mark::One],
    [Mark::Dash, Mark::One, Mark::One],
];

/// A bit of a comparison: the first is greater than the second, or they are equal and the third is 1.
pub(crate) const GT: [[Mark; 3]; 3] = [
    [Mark::One, Mark::Zero, Mark::Dash],
    [Mark::One, Mark::Dash, Mark::One],
    [Mark::Dash, Mark::Zero, Mark::One],
];

/// A bit of a counter: the first is 1 already, or both others are.
pub(crate) const GROW: [[Mark; 3]; 2] = [
    [Mark::One, Mark::Dash, Mark::Dash],
    [Mark::Dash, Mark::One, Mark::One],
];

/// A row of one mark, and then another mark `count` times.
fn row_with_front(alloc: Global, first: Mark, rest: Mark, count: usize) -> Result<Row, AllocError>
    ensures { IfOk result (λ r. r ≡ first ∷ replicate count rest) }
{
    let mut row = Row::new(alloc);
    row.push(first)?;
    for _at in 0..count {
        row.push(rest)?;
    }
    Ok(row)
}

/// The rows of a table over `width` pins, at least one, whose value says whether the first pin is 1 or all
/// pins are 0.
pub(crate) fn low_rows(alloc: Global, width: usize) -> Result<RowList, AllocError>
    requires { 0 < width }
    ensures { IfOk result
        (λ r. r ≡ (One ∷ replicate (width - 1) Dash) ∷ (Zero ∷ replicate (width - 1) Zero) ∷ []) }
{
    let mut rows = Items::new(alloc);
    rows.push(row_with_front(alloc, Mark::One, Mark::Dash, width - 1)?)?;
    rows.push(row_with_front(alloc, Mark::Zero, Mark::Zero, width - 1)?)?;
    Ok(rows)
}

/// The table at a place, from 0, with these pins and rows.
pub(crate) fn numbered_table(
    alloc: Global,
    place: usize,
    pins: SignalList,
    rows: RowList,
) -> Result<Table, AllocError>
    requires { All (λ marks. length marks ≡ length pins) rows }
    ensures { IfOk result (λ t. t ≡ table_of place (form pins rows)) }
{
    let name = Name::numbered(alloc, b't', place as u64)?;
    Ok(Table::new(name, pins, rows, true))
}

/// The name of the model.
pub(crate) fn model_name(alloc: Global) -> Result<Name, AllocError>
    ensures { IfOk result (λ n. n ≡ codes "word") }
{
    Name::known(alloc, b"word")
}
