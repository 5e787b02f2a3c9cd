//! The ids that kept steps name.
ghost use Rattle.std.specs.Prelude.{◌≡◌, ◌||◌, ℕ, IfOk, OnOk, filter};
ghost use Rattle.trim_semantics.specs.Trimming.{has_id};
ghost use Rattle.lrat_trim.specs.Backwards.{is_in, is_fresh, AreFresh};

use proof_parts::log::Ids;
use std::alloc::{AllocError, Global};
use std::collections::BTreeSet;

/// Adds the hints of a step.
pub(crate) fn name_all(named: &mut BTreeSet<u64>, hints: &[u64]) -> Result<(), AllocError>
    ensures { OnOk result ((id : ℕ) → is_in named.new id ≡ (has_id hints.now id || is_in named.old id)) }
{
    for hint in hints {
        named.insert(*hint)?;
    }
    Ok(())
}

/// The hints above `clauses` that are not named yet.
fn fresh_hints(
    alloc: Global,
    clauses: u64,
    hints: &[u64],
    named: &BTreeSet<u64>,
) -> Result<Vec<u64>, AllocError>
    ensures { IfOk result (λ fresh. fresh.items ≡ filter (is_fresh clauses (is_in named.now)) hints.now) }
{
    let mut fresh = Vec::new(alloc);
    for hint in hints {
        if *hint > clauses && !named.contains(hint) {
            fresh.push(*hint)?;
        }
    }
    Ok(fresh)
}

/// The hints above `clauses` that are not named yet, each once and in rising order.
pub(crate) fn fresh_ids(
    alloc: Global,
    clauses: u64,
    hints: &[u64],
    named: &BTreeSet<u64>,
) -> Result<Ids, AllocError>
    ensures { IfOk result (AreFresh clauses hints.now (is_in named.now)) }
{
    let mut fresh = fresh_hints(alloc, clauses, hints, named)?;
    fresh.sort_unstable();
    fresh.dedup();
    Ids::from_slice(alloc, &fresh)
}
