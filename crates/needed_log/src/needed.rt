//! A log without what its refutation does not need. Source: backward checking of clausal proofs.
ghost use Rattle.std.specs.Prelude.{◌≡◌, ◌≤◌, length, take, IfOk};
ghost use Rattle.proof_semantics.specs.Logs.{IsDerivation, Refutes};
ghost use Rattle.needed_log.specs.Kept.{KeepsNeeded};
ghost use Rattle.needed_log.specs.Needed.{IsNeededFrom};

use crate::marks::needed_places;
use crate::new_ids::new_ids;
use crate::renumbering::kept_items;
use proof_parts::cnf::Cnf;
use proof_parts::log::Log;
use std::alloc::{AllocError, Global};

/// Of a derivation that refutes a formula the first `first` additions, and of those behind them the ones from
/// which the last addition follows through hints. What is kept is numbered in turn behind the clauses of the
/// formula. The call goes over the log twice, in time linear in its literals and hints, and takes nine bytes
/// an addition besides the answer. It fails only where there is no memory.
pub fn needed(alloc: Global, formula: &Cnf, first: usize, log: &Log) -> Result<Log, AllocError>
    requires derivation { IsDerivation formula.now log.now }
    requires refutes { Refutes formula.now.clauses log.now }
    requires first { first ≤ length log.now }
    ensures derivation { IfOk result (IsDerivation formula.now) }
    ensures refutes { IfOk result (Refutes formula.now.clauses) }
    ensures begins { IfOk result (λ short. take first short ≡ take first log.now) }
    ensures kept { IfOk result (KeepsNeeded (length formula.now.clauses) first log.now) }
    ensures needed { IfOk result (IsNeededFrom first) }
    ensures shorter { IfOk result (λ short. length short ≤ length log.now) }
{
    let items = log.as_slice();
    let marks = needed_places(alloc, formula, first, items)?;
    let ids = new_ids(alloc, formula.clauses().len() as u64, &marks)?;
    kept_items(alloc, formula, items, &marks, &ids)
}
