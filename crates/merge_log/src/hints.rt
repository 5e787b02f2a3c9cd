//! The hints of the steps that make two rows, or two tables, equal.
ghost use Rattle.std.specs.Prelude.{◌≡◌, ◌+◌, ◌*◌, ◌<◌, ◌^◌, length, All, IfOk};
ghost use Rattle.semantics.specs.Net.{row_literals};
ghost use Rattle.merge_log.specs.Chains.{ended_with, asked, placed_row_chain, placed_table_chain};

use crate::hint_chain::HintChain;
use crate::merged::Merged;
use crate::placed::{Place, PlacedPins};
use net_core::mark::Mark;
use net_core::table::row_literals;
use proof_parts::log::Ids;
use std::alloc::AllocError;

/// What a mark asks of its pin.
pub(crate) fn asked(mark: Mark) -> Option<bool>
    ensures { result ≡ asked mark }
{
    match mark {
        Mark::Zero => Some(false),
        Mark::One => Some(true),
        Mark::Dash => None,
    }
}

/// The hints that the row `from` implies the row `to`, which has the same marks, and pins that were made
/// equal to those of the first.
pub(crate) fn row_hints(
    mut chain: HintChain,
    merged: &Merged,
    marks: &[Mark],
    from: &PlacedPins,
    to: &PlacedPins,
) -> Result<Ids, AllocError>
    requires width { length marks.now ≡ length from.now.pins.now }
    requires to_width { length marks.now ≡ length to.now.pins.now }
    requires pins { All (λ s. s < length merged.now.firsts) from.now.pins.now }
    requires to_pins { All (λ s. s < length merged.now.firsts) to.now.pins.now }
    requires few { from.now.place.clause < 2 ^ 62 }
    requires to_few { to.now.place.clause < 2 ^ 62 }
    ensures { IfOk result (λ hints. hints
        ≡ ended_with (placed_row_chain merged.now marks.now from.now to.now chain)
        (to.now.place.clause + row_literals marks.now)) }
{
    let mut next = from.place.clause;
    for (i, mark) in marks.iter().enumerate() {
        if let Some(sign) = asked(*mark) {
            merged.imply_both(&mut chain, next, from.pins[i], to.pins[i], sign)?;
            next += 1;
        }
    }
    chain.finish(to.place.clause + row_literals(marks) as u64)
}

/// The hints that one table's plane implies another's, which has the same plane, and `count` rows that were
/// made equal to those of the first. The rows of the other table stand from the place `rows` on, and its
/// clauses make them false; those of the first table stand from the place `equal` on, and every second clause
/// from there makes them false; and then the clause with the id `last` is false.
pub(crate) fn table_hints(
    mut chain: HintChain,
    count: u32,
    rows: Place,
    equal: Place,
    last: u64,
) -> Result<Ids, AllocError>
    requires variables { rows.row + count < 2 ^ 31 }
    requires equal_variables { equal.row + count < 2 ^ 31 }
    requires few { rows.clause < 2 ^ 62 }
    requires equal_few { equal.clause < 2 ^ 62 }
    ensures { IfOk result (λ hints. hints
        ≡ ended_with (placed_table_chain rows equal count chain) last) }
{
    for j in 0..count {
        chain.imply(rows.clause + u64::from(j), rows.row + j, false)?;
        chain.imply(equal.clause + 2 * u64::from(j), equal.row + j, false)?;
    }
    chain.finish(last)
}
