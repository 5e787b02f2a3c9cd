//! Copies of logs.
ghost use Rattle.std.specs.Prelude.{◌≡◌, IfOk};

use net_parts::items::Items;
use proof_parts::clause::Lits;
use proof_parts::log::{Item, Log, Step};
use std::alloc::{AllocError, Global};

/// An equal item.
pub(crate) fn item_copy(alloc: Global, item: &Item) -> Result<Item, AllocError>
    ensures { IfOk result (λ copy. copy ≡ item.now) }
{
    match item {
        Item::Add(step) => {
            let lits = Lits::from_slice(alloc, step.lits().as_slice())?;
            Ok(Item::Add(Step::new(step.id(), lits, step.hints().copy()?)))
        }
        Item::Remove(ids) => Ok(Item::Remove(ids.copy()?)),
    }
}

/// An equal log.
pub fn log_copy(alloc: Global, items: &[Item]) -> Result<Log, AllocError>
    ensures { IfOk result (λ copy. copy ≡ items.now) }
{
    let mut copy = Items::new(alloc);
    for item in items {
        copy.push(item_copy(alloc, item)?)?;
    }
    Ok(copy)
}
