//! The items of a log are judged one by one.
ghost use Rattle.std.specs.Prelude.{[], ◌∷◌, ◌++◌, List, IfOk};
ghost use Rattle.proof_semantics.specs.Clauses.{Clause};
ghost use Rattle.proof_semantics.specs.Logs.{LogItem};
ghost use Rattle.lrat_check.specs.Checker.{StandsAfter};
ghost use Rattle.bundle_texts.specs.LogTold.{AreJudged};
ghost use Rattle.bundle_texts.specs.LogJudged.{HasTaken, IsKeptAtEnd};

use crate::item_sink::ItemSink;
use cnf_core::log::Item;
use lrat_check::checker::Checker;
use proof_semantics::step_refusal::StepRefusal;
use std::alloc::AllocError;

/// The checker of a log's items, and what the sink keeps of the items that the checker accepted.
#[derive(Drop)]
pub struct Judge<L> {
    pub checker: Checker,
    pub kept: L,
}

/// Whether the checker accepts the item.
fn is_accepted(checker: &mut Checker, item: &Item) -> Result<bool, AllocError>
    ensures { IfOk result (λ accepted. (clauses : List Clause) (log : List LogItem)
        → StandsAfter clauses log checker.old
        → AreJudged StandsAfter accepted clauses (log ++ item.now ∷ []) checker.new) }
{
    match item {
        Item::Add(step) => match checker.step(step) {
            Ok(()) => Ok(true),
            Err(refusal) => match refusal {
                StepRefusal::OutOfMemory => Err(AllocError),
                _ => Ok(false),
            },
        },
        Item::Remove(ids) => {
            checker.remove(ids);
            Ok(true)
        }
    }
}

impl<L: ItemSink> Judge<L> {
    /// Takes the next item, and returns whether the checker accepted it.
    pub fn accepts(&mut self, item: Item) -> Result<bool, AllocError>
        ensures { IfOk result (λ accepted. (clauses : List Clause) (log : List LogItem)
            → HasTaken L.holds clauses log self.old
            → AreJudged (HasTaken L.holds) accepted clauses (log ++ item ∷ []) self.new) }
    {
        if !is_accepted(&mut self.checker, &item)? {
            return Ok(false);
        }
        self.kept.take(item)?;
        Ok(true)
    }

    /// What is kept, if the clause that was added last is the empty one.
    pub fn finish(self) -> Option<L>
        ensures { (clauses : List Clause) (log : List LogItem)
            → HasTaken L.holds clauses log self → IsKeptAtEnd L.holds log result }
    {
        if self.checker.done() {
            return Some(self.kept);
        }
        None
    }
}
