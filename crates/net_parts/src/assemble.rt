//! What parts are put together into. So a network under construction is finished without knowing how a net is
//! held.
ghost use Rattle.std.specs.Prelude.{◌≡◌, ◌+◌, ◌<◌, ◌^◌, length, IfOk};
ghost use Rattle.semantics.specs.Net.{NetValue, IsSound};

use crate::items::{NameList, SignalList, TableList};
use crate::name::Name;
use std::alloc::{AllocError, Global};

/// What can be made of parts that are known to be the parts of a sound net.
pub trait Assemble: Drop {
    /// The net that was made.
    ghost net: { Self → NetValue };

    /// The net of these parts. There are fewer than 2^31 signals and at most as many outputs.
    fn assemble(
        alloc: Global,
        model: Name,
        inputs: NameList,
        tables: TableList,
        outputs: SignalList,
    ) -> Result<Self, AllocError>
        requires sound { IsSound
            (record { model = model; inputs = inputs; tables = tables; outputs = outputs }) }
        requires few_signals { length inputs + length tables < 2 ^ 31 }
        requires few_outputs { length outputs < 2 ^ 31 }
        ensures { IfOk result
            (λ n. net n ≡ record { model = model; inputs = inputs; tables = tables; outputs = outputs }) };
}
