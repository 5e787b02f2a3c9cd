//! The steps that make a table equal to another: its rows, and then the table itself.
ghost use Rattle.std.specs.Prelude.{◌≡◌, ◌+◌, ◌*◌, ◌<◌, ◌^◌, [], ◌∷◌, ◌++◌, length, IfOk, OnOk};
ghost use Rattle.proof_semantics.specs.Variables.{table_clause_count};
ghost use Rattle.proof_semantics.specs.Logs.{IsDerivation};
ghost use Rattle.proof_semantics.specs.Conflicts.{clauses_with};
ghost use Rattle.merge_log.specs.Ids.{HaveIds, AreMerged, link, forth, back};
ghost use Rattle.merge_log.specs.Steps.{Adds, IsTableAt, IsImpliedAt, AreToMerge, row_pairs};

use crate::hint_chain::HintChain;
use crate::hints::table_hints;
use crate::merged::Merged;
use crate::placed::{Implied, ImpliedPair, Place, PlacedPins, PlacedTable, RowsPair};
use crate::steps::{link, merge_rows, next_id, push_step};
use proof_parts::cnf::Cnf;
use proof_parts::log::Log;
use std::alloc::{AllocError, Global};

/// Adds the step whose clause says that the first table's signal has the value `!sign` or the other's the
/// value `sign`.
fn push_table(
    alloc: Global,
    goal: &Cnf,
    log: &mut Log,
    pair: &ImpliedPair,
    sign: bool,
) -> Result<(), AllocError>
    requires derivation { IsDerivation goal.now log.old }
    requires equal { HaveIds (clauses_with goal.now.clauses log.old) pair.now.equal
        (row_pairs pair.now.own.place.row pair.now.other.place.row pair.now.rows) }
    requires few { pair.now.equal < 2 ^ 61 }
    requires own { IsImpliedAt goal.now pair.now.plane pair.now.rows pair.now.own }
    requires other { IsImpliedAt goal.now pair.now.plane pair.now.rows pair.now.other }
    ensures { OnOk result (Adds goal.now log.old log.new
        (link pair.now.own.signal pair.now.other.signal sign ∷ [])) }
{
    let _variables = goal.vars();
    let s = pair.own.signal;
    let u = pair.other.signal;
    let at = pair.own.place;
    let other = pair.other.place;
    let chain = HintChain::new(alloc, s, u, sign)?;
    let count = u64::from(pair.rows);
    let hints = if sign == pair.plane {
        let equal = Place {
            row: at.row,
            clause: pair.equal,
        };
        table_hints(chain, pair.rows, other, equal, at.clause + count)?
    } else {
        let equal = Place {
            row: other.row,
            clause: pair.equal + 1,
        };
        table_hints(chain, pair.rows, at, equal, other.clause + count)?
    };
    push_step(goal, log, link(alloc, s, u, sign)?, hints)
}

/// The signal of a table, and where the clauses stand by which its rows imply it.
fn implied(table: &PlacedTable) -> Implied
    requires { table.now.place.clause + table_clause_count table.now.table.now < 2 ^ 61 }
    ensures signal { result.signal ≡ table.now.signal }
    ensures row { result.place.row ≡ table.now.place.row }
    ensures clause { result.place.clause + length table.now.table.now.rows + 1
        ≡ table.now.place.clause + table_clause_count table.now.table.now }
{
    let before = table.table.literals() + table.table.rows().len() as u64;
    Implied {
        signal: table.signal,
        place: Place {
            row: table.place.row,
            clause: table.place.clause + before,
        },
    }
}

/// Makes a table equal to another, which has the same plane, the same rows, and pins that were made equal:
/// two steps for each row, and then two. Returns the id of the first of these two, which says that the first
/// table implies the other.
pub(crate) fn merge_tables(
    alloc: Global,
    goal: &Cnf,
    log: &mut Log,
    merged: &Merged,
    own: &PlacedTable,
    other: &PlacedTable,
) -> Result<u64, AllocError>
    requires derivation { IsDerivation goal.now log.old }
    requires merged { AreMerged (clauses_with goal.now.clauses log.old) merged.now }
    requires own { IsTableAt goal.now merged.now own.now }
    requires other { IsTableAt goal.now merged.now other.now }
    requires alike { AreToMerge merged.now own.now.table.now other.now.table.now }
    ensures adds { OnOk result (Adds goal.now log.old log.new
        (row_pairs own.now.place.row other.now.place.row (length own.now.table.now.rows)
        ++ forth own.now.signal other.now.signal ∷ back own.now.signal other.now.signal ∷ [])) }
    ensures id { IfOk result (λ id. id
        ≡ length goal.now.clauses + length log.old + 2 * length own.now.table.now.rows + 1) }
    ensures few { IfOk result (λ id. id < 2 ^ 61) }
{
    let _variables = goal.vars();
    let equal = next_id(goal, log);
    let rows = RowsPair {
        rows: own.table.rows().as_slice(),
        own: PlacedPins {
            place: own.place,
            pins: own.table.pins().as_slice(),
        },
        other: PlacedPins {
            place: other.place,
            pins: other.table.pins().as_slice(),
        },
    };
    merge_rows(alloc, goal, log, merged, &rows)?;
    let pair = ImpliedPair {
        plane: own.table.plane(),
        rows: rows.rows.len() as u32,
        own: implied(own),
        other: implied(other),
        equal,
    };
    let id = next_id(goal, log);
    push_table(alloc, goal, log, &pair, true)?;
    push_table(alloc, goal, log, &pair, false)?;
    Ok(id)
}
