//! Trimmed logs. Source: backward checking of clausal proofs.
ghost use Rattle.std.specs.Prelude.{◌≡◌, Some, IfOk, position, reverse};
ghost use Rattle.proof_semantics.specs.Logs.{Refutes};
ghost use Rattle.trim_semantics.specs.Trimmed.{IsTrimmed};
ghost use Rattle.trim_semantics.specs.Trimming.{trimmed};
ghost use Rattle.lrat_trim.specs.Backwards.{adds_empty_clause};

use crate::kept_step::{keep, visit};
use crate::root::root_place;
use proof_parts::cnf::Cnf;
use proof_parts::log::{Item, Log};
use std::alloc::{AllocError, Global};
use std::collections::BTreeSet;

/// The items of the trimmed log, in reverse.
fn kept_backwards(
    alloc: Global,
    goal: &Cnf,
    items: &[Item],
    root: usize,
) -> Result<Vec<Item>, AllocError>
    requires refutes { Refutes goal.now.clauses items.now }
    requires root { position adds_empty_clause items.now ≡ Some root }
    ensures { IfOk result (λ kept. reverse kept.items ≡ trimmed items.now) }
{
    let clauses = goal.clauses().len() as u64;
    let mut named = BTreeSet::new(alloc);
    let mut kept = Vec::new(alloc);
    if let Item::Add(s) = &items[root] {
        keep(alloc, s, &mut named, &mut kept)?;
    }
    let mut place = root;
    while place > 0 {
        place -= 1;
        visit(alloc, clauses, &items[place], &mut named, &mut kept)?;
    }
    Ok(kept)
}

/// The log of these items in reverse order.
fn turned(alloc: Global, items: Vec<Item>) -> Result<Log, AllocError>
    ensures { IfOk result (λ log. log ≡ reverse items.items) }
{
    let mut rest = items;
    let mut log = Log::new(alloc);
    while let Some(item) = rest.pop() {
        log.push(item)?;
    }
    Ok(log)
}

/// Of a log that refutes the goal the additions that its first empty clause is reached from through hints,
/// each removed as soon as no further one names it. It goes from that clause to the front of the log, and
/// looks each id up by comparisons, so that no choice of ids is slow; it fails only where there is no memory.
pub fn trim(alloc: Global, goal: &Cnf, log: &Log) -> Result<Log, AllocError>
    requires { Refutes goal.now.clauses log.now }
    ensures value { IfOk result (λ short. short ≡ trimmed log.now) }
    ensures trimmed { IfOk result (IsTrimmed log.now) }
    ensures refutes { IfOk result (Refutes goal.now.clauses) }
{
    let items = log.as_slice();
    match root_place(items) {
        Some(root) => turned(alloc, kept_backwards(alloc, goal, items, root)?),
        None => Ok(Log::new(alloc)),
    }
}
