//! Why parts make no small sound net.
ghost use Rattle.std.specs.Prelude.{◌≡◌};
ghost use Rattle.net_core.specs.declared.refusal.NetRefusal.TheVariants.{OutOfMemory};

use crate::limits::Which;
use net_parts::items::Signal;
use net_parts::name::Name;
use std::alloc::AllocError;
use thiserror::Error;

/// The reasons in the order in which they are tested; want of memory may come at any point.
#[derive(Debug, Drop, Error)]
pub enum NetRefusal {
    /// The first name that stands a second time among the inputs' names and then the tables'.
    #[error("a name stands twice")]
    Doubled(Name),
    #[error("no output")]
    NoOutput,
    /// The first pin, in table and pin order, or else the first output, that is no signal.
    #[error("signal {0} is not there")]
    Undriven(Signal),
    /// The signal of the first table that depends on itself or on a table that does.
    #[error("signal {0} depends on a cycle")]
    Cycle(Signal),
    /// The first limit that is passed.
    #[error("too many")]
    Limit(Which),
    #[error("out of memory")]
    OutOfMemory,
}

impl From<AllocError> for NetRefusal {
    ghost from_gives = { λ _ e. e ≡ OutOfMemory };

    fn from(_: AllocError) -> NetRefusal {
        NetRefusal::OutOfMemory
    }
}
