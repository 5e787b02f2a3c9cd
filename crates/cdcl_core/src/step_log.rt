//! The log of a search, whose last step may still lie in the lists in which the analysis made it.
//!
//! These lists have room to spare, and were made before the analysis, so a step that is logged takes no
//! memory. The step is packed into lists of exact size, for which memory is taken, before the next conflict
//! is analysed, or at the end.
ghost use Rattle.std.specs.Prelude.{◌≡◌, true, false, ◌∷◌, ◌++◌, [], reverse, IfOk, OnOk};
ghost use Rattle.proof_semantics.specs.declared.item.Item.TheVariants.{Add};

use crate::analysis::Learned;
use crate::clause::written;
use crate::literal::Literal;
use proof_parts::log::{Ids, Item, Log, Step};
use std::alloc::{AllocError, Global};
use std::marker::Model;
use std::mem;

/// The packed steps, and the parts of a step that is held, if there is one.
#[derive(Drop)]
pub struct StepLog {
    packed: Log,
    is_held: bool,
    id: u64,
    clause: Vec<Literal>,
    hints: Vec<u64>,
}

impl Model for StepLog {
    ghost use Rattle.std.specs.Prelude.{not};
    ghost use Rattle.cdcl_core.specs.StepLog.{LogValue, with_held};

    ghost Value = { LogValue };

    ghost view = { λ l. record {
      items = with_held l.packed l.is_held l.id l.clause.items l.hints.items;
      is_packed = not l.is_held;
    } };
}

/// A step in lists of exact size.
fn packed_step(
    alloc: Global,
    id: u64,
    clause: &[Literal],
    hints: &[u64],
) -> Result<Step, AllocError>
    ensures { IfOk result (λ s. s ≡ record { id = id; literals = clause.now; hints = hints.now }) }
{
    let hints = Ids::from_slice(alloc, hints)?;
    Ok(Step::new(id, written(alloc, clause)?, hints))
}

impl StepLog {
    /// The steps of a log. The call takes no memory.
    pub fn new(alloc: Global, packed: Log) -> StepLog
        ensures { result ≡ record { items = packed; is_packed = true } }
    {
        StepLog {
            packed,
            is_held: false,
            id: 0,
            clause: Vec::new(alloc),
            hints: Vec::new(alloc),
        }
    }

    /// Packs the last step, so that it lies in lists of exact size.
    pub fn pack(&mut self, alloc: Global) -> Result<(), AllocError>
        ensures items { self.new.items ≡ self.old.items }
        ensures packed { OnOk result (self.new.is_packed ≡ true) }
    {
        if self.is_held {
            let step = packed_step(alloc, self.id, &self.clause, &self.hints)?;
            self.packed.push(Item::Add(step))?;
            self.is_held = false;
        }
        Ok(())
    }

    /// Logs the step of what was learned, the last of whose hints stands first, and gives lists in exchange.
    /// The call takes no memory.
    pub fn hold(&mut self, id: u64, learned: &mut Learned)
        requires { self.old.is_packed ≡ true }
        ensures { self.new ≡ record {
          items = self.old.items
              ++ Add (record {
                id = id;
                literals = learned.old.clause.items;
                hints = reverse learned.old.hints.items;
              }) ∷ [];
          is_packed = false;
        } }
    {
        mem::swap(&mut self.clause, &mut learned.clause);
        mem::swap(&mut self.hints, &mut learned.hints);
        self.hints.reverse();
        self.id = id;
        self.is_held = true;
    }

    /// The whole log.
    pub fn into_log(self, alloc: Global) -> Result<Log, AllocError>
        ensures { IfOk result (λ log. log ≡ self.items) }
    {
        let mut log = self;
        log.pack(alloc)?;
        Ok(log.packed)
    }
}
