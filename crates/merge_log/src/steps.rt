//! The steps that make rows equal.
ghost use Rattle.std.specs.Prelude.{◌≡◌, ◌+◌, ◌<◌, ◌^◌, [], ◌∷◌, ◌++◌, length, IfOk, OnOk};
ghost use Rattle.semantics.specs.Net.{row_literals};
ghost use Rattle.std.specs.List.{AllZip};
ghost use Rattle.proof_semantics.specs.declared.item.Item.TheVariants.{Add};
ghost use Rattle.proof_semantics.specs.Logs.{IsDerivation};
ghost use Rattle.proof_semantics.specs.Conflicts.{clauses_with};
ghost use Rattle.merge_log.specs.Chains.{first_of};
ghost use Rattle.merge_log.specs.Ids.{AreMerged, link, forth, back};
ghost use Rattle.merge_log.specs.Steps.{Adds, IsRowAt, AreRowsAt, row_pairs};

use crate::hint_chain::{HintChain, two_literals};
use crate::hints::row_hints;
use crate::merged::Merged;
use crate::placed::{Place, PlacedPins, RowPair, RowsPair};
use net_core::table::row_literals;
use proof_parts::clause::Lits;
use proof_parts::cnf::Cnf;
use proof_parts::literal::literal_at;
use proof_parts::log::{Ids, Item, Log, Step};
use std::alloc::{AllocError, Global};

/// The id of the next step.
pub(crate) fn next_id(goal: &Cnf, log: &Log) -> u64
    ensures value { result ≡ length goal.now.clauses + length log.now + 1 }
    ensures few { result < 2 ^ 61 }
{
    let clauses = goal.clauses().as_slice().len() as u64;
    clauses + log.as_slice().len() as u64 + 1
}

/// The clause that says that the variable of place s has the value `!sign`, or that of place u the value
/// `sign`.
pub(crate) fn link(alloc: Global, s: u32, u: u32, sign: bool) -> Result<Lits, AllocError>
    requires s { s + 1 < 2 ^ 31 }
    requires u { u + 1 < 2 ^ 31 }
    ensures { IfOk result (λ clause. clause ≡ link s u sign) }
{
    two_literals(alloc, literal_at(s, !sign), literal_at(u, sign))
}

/// Adds the step with this clause and these hints.
pub(crate) fn push_step(
    goal: &Cnf,
    log: &mut Log,
    clause: Lits,
    hints: Ids,
) -> Result<(), AllocError>
    ensures pushed { OnOk result (log.new ≡ log.old
        ++ Add (record {
          id = length goal.now.clauses + length log.old + 1;
          literals = clause;
          hints = hints;
        }) ∷ []) }
    ensures few { length goal.now.clauses + length log.old + 1 < 2 ^ 61 }
{
    let id = next_id(goal, log);
    log.push(Item::Add(Step::new(id, clause, hints)))
}

/// Adds the step that says that a row implies another one or, where `sign` is false, is implied by it. The
/// rows have the same marks, and their pins were made equal.
fn push_row(
    alloc: Global,
    goal: &Cnf,
    log: &mut Log,
    merged: &Merged,
    pair: &RowPair,
    sign: bool,
) -> Result<(), AllocError>
    requires derivation { IsDerivation goal.now log.old }
    requires merged { AreMerged (clauses_with goal.now.clauses log.old) merged.now }
    requires row { IsRowAt goal.now merged.now pair.now.marks.now pair.now.own }
    requires other_row { IsRowAt goal.now merged.now pair.now.marks.now pair.now.other }
    requires same { AllZip (λ p q. first_of merged.now p ≡ first_of merged.now q) pair.now.own.pins.now
        pair.now.other.pins.now }
    ensures { OnOk result (Adds goal.now log.old log.new
        (link pair.now.own.place.row pair.now.other.place.row sign ∷ [])) }
{
    let _variables = goal.vars();
    let row = pair.own.place.row;
    let other = pair.other.place.row;
    let chain = HintChain::new(alloc, row, other, sign)?;
    let hints = if sign {
        row_hints(chain, merged, pair.marks, &pair.own, &pair.other)?
    } else {
        row_hints(chain, merged, pair.marks, &pair.other, &pair.own)?
    };
    push_step(goal, log, link(alloc, row, other, sign)?, hints)
}

/// Makes a row equal to another one, which has the same marks, and pins that were made equal to those of the
/// first: two steps.
fn merge_row(
    alloc: Global,
    goal: &Cnf,
    log: &mut Log,
    merged: &Merged,
    pair: &RowPair,
) -> Result<(), AllocError>
    requires derivation { IsDerivation goal.now log.old }
    requires merged { AreMerged (clauses_with goal.now.clauses log.old) merged.now }
    requires row { IsRowAt goal.now merged.now pair.now.marks.now pair.now.own }
    requires other_row { IsRowAt goal.now merged.now pair.now.marks.now pair.now.other }
    requires same { AllZip (λ p q. first_of merged.now p ≡ first_of merged.now q) pair.now.own.pins.now
        pair.now.other.pins.now }
    ensures { OnOk result (Adds goal.now log.old log.new
        (forth pair.now.own.place.row pair.now.other.place.row
        ∷ back pair.now.own.place.row pair.now.other.place.row ∷ [])) }
{
    push_row(alloc, goal, log, merged, pair, true)?;
    push_row(alloc, goal, log, merged, pair, false)
}

/// Makes the rows of two tables equal. The tables have the same rows, and their pins were made equal.
pub(crate) fn merge_rows(
    alloc: Global,
    goal: &Cnf,
    log: &mut Log,
    merged: &Merged,
    pair: &RowsPair,
) -> Result<(), AllocError>
    requires derivation { IsDerivation goal.now log.old }
    requires merged { AreMerged (clauses_with goal.now.clauses log.old) merged.now }
    requires rows { AreRowsAt goal.now merged.now pair.now.rows.now pair.now.own }
    requires other_rows { AreRowsAt goal.now merged.now pair.now.rows.now pair.now.other }
    requires same { AllZip (λ p q. first_of merged.now p ≡ first_of merged.now q) pair.now.own.pins.now
        pair.now.other.pins.now }
    ensures { OnOk result (Adds goal.now log.old log.new
        (row_pairs pair.now.own.place.row pair.now.other.place.row (length pair.now.rows.now))) }
{
    let _variables = goal.vars();
    let (mut id, mut behind) = (pair.own.place.clause, pair.other.place.clause);
    for (j, row) in pair.rows.iter().enumerate() {
        let marks = row.as_slice();
        let own = PlacedPins {
            place: Place {
                row: pair.own.place.row + j as u32,
                clause: id,
            },
            pins: pair.own.pins,
        };
        let other = PlacedPins {
            place: Place {
                row: pair.other.place.row + j as u32,
                clause: behind,
            },
            pins: pair.other.pins,
        };
        merge_row(alloc, goal, log, merged, &RowPair { marks, own, other })?;
        let clauses = row_literals(marks) as u64 + 1;
        id += clauses;
        behind += clauses;
    }
    Ok(())
}
