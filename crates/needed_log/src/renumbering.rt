//! The marked additions of a log, numbered in turn.
ghost use Rattle.std.specs.Prelude.{◌≡◌, ◌<◌, ◌≤◌, ◌+◌, ◌^◌, length, map, IfOk};
ghost use Rattle.proof_semantics.specs.Logs.{IsDerivation};
ghost use Rattle.needed_log.specs.Marks.{AreWithin};
ghost use Rattle.needed_log.specs.Kept.{kept};
ghost use Rattle.needed_log.specs.Renumbered.{ids_of, new_item};

use crate::new_ids::{new_hints, new_id};
use proof_parts::clause::Lits;
use proof_parts::cnf::Cnf;
use proof_parts::log::{Item, Log, Step};
use std::alloc::{AllocError, Global};

/// A copy of the item under its new ids.
fn new_item(alloc: Global, clauses: u64, ids: &[u64], item: &Item) -> Result<Item, AllocError>
    requires { AreWithin clauses (length ids.now) (ids_of item.now) }
    ensures { IfOk result (λ new. new ≡ new_item clauses ids.now item.now) }
{
    match item {
        Item::Add(s) => {
            let lits = Lits::from_slice(alloc, s.lits().as_slice())?;
            let hints = new_hints(alloc, clauses, ids, s.hints().as_slice())?;
            Ok(Item::Add(Step::new(new_id(clauses, ids, s.id()), lits, hints)))
        }
        Item::Remove(gone) => Ok(Item::Remove(new_hints(alloc, clauses, ids, gone.as_slice())?)),
    }
}

/// The items at marked places, under their new ids.
pub(crate) fn kept_items(
    alloc: Global,
    formula: &Cnf,
    items: &[Item],
    marks: &[bool],
    ids: &[u64],
) -> Result<Log, AllocError>
    requires derivation { IsDerivation formula.now items.now }
    requires marks { length marks.now ≡ length items.now }
    requires ids { length ids.now ≡ length items.now }
    ensures { IfOk result (λ short.
        short ≡ map (new_item (length formula.now.clauses) ids.now) (kept marks.now items.now)) }
{
    let clauses = formula.clauses().len() as u64;
    let mut short = Log::new(alloc);
    for (place, item) in items.iter().enumerate() {
        if marks[place] {
            short.push(new_item(alloc, clauses, ids, item)?)?;
        }
    }
    Ok(short)
}
