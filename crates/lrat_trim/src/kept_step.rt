//! What keeping a step adds to the front of the trimmed log. The log grows from its end, so its items are
//! held in reverse.
ghost use Rattle.std.specs.Prelude.{◌≡◌, ◌||◌, ◌++◌, ◌∷◌, [], ℕ, List, IfOk, OnOk};
ghost use Rattle.proof_semantics.specs.declared.item.Item.TheVariants.{Add};
ghost use Rattle.trim_semantics.specs.Trimmed.{removal_of};
ghost use Rattle.trim_semantics.specs.Trimming.{has_id};
ghost use Rattle.lrat_trim.specs.Backwards.{is_in, AreFresh, Visited};

use crate::named_ids::{fresh_ids, name_all};
use proof_parts::clause::Lits;
use proof_parts::log::{Ids, Item, Step};
use std::alloc::{AllocError, Global};
use std::collections::BTreeSet;

fn copy_of(alloc: Global, s: &Step) -> Result<Step, AllocError>
    ensures { IfOk result (λ copy. copy ≡ s.now) }
{
    let lits = Lits::from_slice(alloc, s.lits().as_slice())?;
    let hints = Ids::from_slice(alloc, s.hints().as_slice())?;
    Ok(Step::new(s.id(), lits, hints))
}

/// Adds the step to the front; the ids that it names are named from then on.
pub(crate) fn keep(
    alloc: Global,
    s: &Step,
    named: &mut BTreeSet<u64>,
    kept: &mut Vec<Item>,
) -> Result<(), AllocError>
    ensures named { OnOk result
        ((id : ℕ) → is_in named.new id ≡ (has_id s.now.hints id || is_in named.old id)) }
    ensures kept { OnOk result (kept.new.items ≡ kept.old.items ++ Add s.now ∷ []) }
{
    name_all(named, s.hints().as_slice())?;
    kept.push(Item::Add(copy_of(alloc, s)?))?;
    Ok(())
}

/// Adds to the front the removal of the additions that the step is the last to name, where there are any.
fn end_fresh(
    alloc: Global,
    clauses: u64,
    s: &Step,
    named: &BTreeSet<u64>,
    kept: &mut Vec<Item>,
) -> Result<(), AllocError>
    ensures { OnOk result ((ids : List ℕ)
        × AreFresh clauses s.now.hints (is_in named.now) ids
        × (kept.new.items ≡ kept.old.items ++ removal_of ids)) }
{
    let ids = fresh_ids(alloc, clauses, s.hints().as_slice(), named)?;
    if !ids.is_empty() {
        kept.push(Item::Remove(ids))?;
    }
    Ok(())
}

/// Keeps an addition that is named, and behind it the removal of what it is the last to name.
pub(crate) fn visit(
    alloc: Global,
    clauses: u64,
    item: &Item,
    named: &mut BTreeSet<u64>,
    kept: &mut Vec<Item>,
) -> Result<(), AllocError>
    ensures { OnOk result (Visited clauses item.now
        (record { named = is_in named.old; kept = kept.old.items })
        (record { named = is_in named.new; kept = kept.new.items })) }
{
    if let Item::Add(s) = item {
        if named.contains(&s.id()) {
            end_fresh(alloc, clauses, s, named, kept)?;
            keep(alloc, s, named, kept)?;
        }
    }
    Ok(())
}
