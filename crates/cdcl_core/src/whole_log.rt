//! The whole log: the steps of all rounds, each under the id that it has there.
//!
//! A round knows its clauses by ids of its own. Its steps are appended to the whole log with the ids that the
//! clauses have there. No step of the whole log is ever removed, so nothing that a reason needs is forgotten.
ghost use Rattle.std.specs.Prelude.{◌≡◌, ◌+◌, ◌<◌, ◌^◌, ◌++◌, map, length, IfOk, OnOk};
ghost use Rattle.cdcl_core.specs.Rounds.{HasNextIds, whole_id, renamed};

use net_parts::items::Items;
use proof_parts::clause::Lits;
use proof_parts::log::{Ids, Item, Log, Step};
use std::alloc::{AllocError, Global};

/// The id in the whole log of what has the id `id` in a round, or 0 where the round has no such id.
fn whole_id(ids: &[u64], id: u64) -> u64
    ensures { result ≡ whole_id ids.now id }
{
    let place = id.saturating_sub(1) as usize;
    if place < ids.len() { ids[place] } else { 0 }
}

/// The ids in the whole log of several clauses of a round.
fn whole_ids(alloc: Global, ids: &[u64], named: &[u64]) -> Result<Ids, AllocError>
    ensures { IfOk result (λ whole. whole ≡ map (whole_id ids.now) named.now) }
{
    let mut whole = Items::new(alloc);
    for id in named {
        whole.push(whole_id(ids, *id))?;
    }
    Ok(whole)
}

/// A copy of an item of a round, with the ids of the whole log.
fn renamed(alloc: Global, ids: &[u64], item: &Item) -> Result<Item, AllocError>
    ensures { IfOk result (λ copy. copy ≡ renamed ids.now item.now) }
{
    match item {
        Item::Add(step) => {
            let lits = Lits::from_slice(alloc, step.lits().as_slice())?;
            let hints = whole_ids(alloc, ids, step.hints().as_slice())?;
            Ok(Item::Add(Step::new(whole_id(ids, step.id()), lits, hints)))
        }
        Item::Remove(removed) => Ok(Item::Remove(whole_ids(alloc, ids, removed.as_slice())?)),
    }
}

/// Appends the items of a round, with the ids of the whole log.
pub fn append_renamed(
    alloc: Global,
    whole: &mut Log,
    ids: &[u64],
    items: &[Item],
) -> Result<(), AllocError>
    ensures { OnOk result (whole.new ≡ whole.old ++ map (renamed ids.now) items.now) }
{
    for item in items {
        whole.push(renamed(alloc, ids, item)?)?;
    }
    Ok(())
}

/// Adds `count` ids, from `next` on.
pub fn push_next_ids(ids: &mut Ids, next: u64, count: u64) -> Result<(), AllocError>
    requires { next + count < 2 ^ 64 }
    ensures { OnOk result (HasNextIds next count ids.old ids.new) }
{
    for j in 0..count {
        ids.push(next + j)?;
    }
    Ok(())
}
