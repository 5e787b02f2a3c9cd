//! Which places of a log hold what its last addition follows from.
ghost use Rattle.std.specs.Prelude.{◌≡◌, ◌<◌, ◌≤◌, ◌+◌, ◌^◌, length, IfOk};
ghost use Rattle.proof_semantics.specs.Logs.{IsDerivation};
ghost use Rattle.needed_log.specs.Marks.{AreWithin, AreFirstMarks, AreMarked, AreMarkedToo};

use crate::items::hints_of;
use proof_parts::cnf::Cnf;
use proof_parts::log::Item;
use std::alloc::{AllocError, Global};

/// Marks the places of the additions among the hints: `clauses` ids stand before those of the additions.
fn mark_hints(clauses: u64, hints: &[u64], marks: &mut [bool])
    requires { AreWithin clauses (length marks.old) hints.now }
    ensures { AreMarkedToo clauses hints.now marks.old marks.new }
{
    for hint in hints {
        if *hint > clauses {
            marks[(*hint - clauses - 1) as usize] = true;
        }
    }
}

/// Marks of `places` places: the first `first` ones and the last.
fn first_marks(alloc: Global, first: usize, places: usize) -> Result<Vec<bool>, AllocError>
    requires first { first ≤ places }
    requires some { 0 < places }
    ensures { IfOk result (λ marks. AreFirstMarks first places marks.items) }
{
    let mut marks = vec![in alloc; false; places]?;
    for place in 0..first {
        marks[place] = true;
    }
    marks[places - 1] = true;
    Ok(marks)
}

/// Marks the first places, the last, and each place that a marked one names.
pub(crate) fn needed_places(
    alloc: Global,
    formula: &Cnf,
    first: usize,
    items: &[Item],
) -> Result<Vec<bool>, AllocError>
    requires derivation { IsDerivation formula.now items.now }
    requires first { first ≤ length items.now }
    requires some { 0 < length items.now }
    ensures { IfOk result (λ marks. AreMarked (length formula.now.clauses) first 0 items.now marks.items) }
{
    let clauses = formula.clauses().len() as u64;
    let mut marks = first_marks(alloc, first, items.len())?;
    let mut place = items.len();
    while place > first {
        place -= 1;
        if marks[place] {
            mark_hints(clauses, hints_of(&items[place]), &mut marks);
        }
    }
    Ok(marks)
}
