//! The ids that the kept additions get.
ghost use Rattle.std.specs.Prelude.{◌≡◌, ◌<◌, ◌≤◌, ◌+◌, ◌^◌, length, map, IfOk};
ghost use Rattle.needed_log.specs.Marks.{AreWithin};
ghost use Rattle.needed_log.specs.Renumbered.{AreNewIds, new_id};

use proof_parts::log::Ids;
use std::alloc::{AllocError, Global};

/// For each place the id that comes next behind the marked places before it.
pub(crate) fn new_ids(alloc: Global, clauses: u64, marks: &[bool]) -> Result<Vec<u64>, AllocError>
    requires { clauses + length marks.now < 2 ^ 63 }
    ensures { IfOk result (λ ids. AreNewIds clauses marks.now ids.items) }
{
    let mut ids = Vec::with_capacity(alloc, marks.len())?;
    let mut next = clauses + 1;
    for mark in marks {
        ids.push(next)?;
        if *mark {
            next += 1;
        }
    }
    Ok(ids)
}

/// An addition's new id; the clauses of the formula keep theirs.
pub(crate) fn new_id(clauses: u64, ids: &[u64], id: u64) -> u64
    requires { clauses < id → id ≤ clauses + length ids.now }
    ensures { result ≡ new_id clauses ids.now id }
{
    if id > clauses {
        ids[(id - clauses - 1) as usize]
    } else {
        id
    }
}

/// The new ids of the hints.
pub(crate) fn new_hints(
    alloc: Global,
    clauses: u64,
    ids: &[u64],
    hints: &[u64],
) -> Result<Ids, AllocError>
    requires { AreWithin clauses (length ids.now) hints.now }
    ensures { IfOk result (λ new. new ≡ map (new_id clauses ids.now) hints.now) }
{
    let mut new = Ids::new(alloc);
    for hint in hints {
        new.push(new_id(clauses, ids, *hint))?;
    }
    Ok(new)
}
