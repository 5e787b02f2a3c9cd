//! Where the items of a log go.
ghost use Rattle.std.specs.Prelude.{◌≡◌, List, [], ◌∷◌, ◌++◌, IfOk};
ghost use Rattle.proof_semantics.specs.Logs.{LogItem};

use cnf_core::log::{Item, Log};
use std::alloc::{AllocError, Global};

/// Takes the items of a log in order, from its first one on.
pub trait ItemSink: Drop {
    /// What the sink has made of these items, once all of them were taken.
    ghost holds: { Self → List LogItem → Type 0 };

    /// Before the first item.
    fn empty(alloc: Global) -> Self
        ensures { holds result [] };

    /// Takes the next item.
    fn take(&mut self, item: Item) -> Result<(), AllocError>
        ensures { IfOk result (λ _. (log : List LogItem)
            → holds self.old log → holds self.new (log ++ item ∷ [])) };
}

/// Keeps no item.
#[derive(Drop)]
pub struct NoItems;

impl ItemSink for NoItems {
    ghost holds = { λ _ _. Unit {0} };

    fn empty(_alloc: Global) -> NoItems {
        NoItems
    }

    fn take(&mut self, _item: Item) -> Result<(), AllocError> {
        Ok(())
    }
}

/// Keeps them all.
impl ItemSink for Log {
    ghost holds = { λ kept log. kept ≡ log };

    fn empty(alloc: Global) -> Log {
        Log::new(alloc)
    }

    fn take(&mut self, item: Item) -> Result<(), AllocError> {
        self.push(item)
    }
}
