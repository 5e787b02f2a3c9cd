//! Why a text is not read. Source: BLIF; what is refused, and in which order, is this tool's own.
ghost use Rattle.std.specs.Prelude.{◌≡◌};
ghost use Rattle.blif_text.specs.declared.refusal.BlifRefusal.TheVariants.{OutOfMemory as NoMemory};

use file_core::word::Word;
use net_core::name::Name;
use semantics::which::Which;
use std::alloc::AllocError;

/// Why a text is refused. Lines are counted from 1.
#[derive(Debug, Drop)]
pub enum BlifRefusal {
    /// The text has more bytes than the limit.
    TextLong,
    BadByte { line: u64 },
    /// A command that is none of the five.
    Command { line: u64, word: Word },
    /// A row that stands behind no table.
    StrayRow { line: u64 },
    BadRow { line: u64 },
    /// A row whose plane is not that of its table's first row.
    MixedPlane { line: u64 },
    SecondModel { line: u64 },
    AfterEnd { line: u64 },
    /// `.names` alone.
    NamesEmpty { line: u64 },
    BadName { line: u64 },
    /// An input or a table has the name of one before.
    Doubled { name: Name },
    /// A pin or an output is no input and no table.
    Undriven { name: Name },
    NoOutput,
    /// The first table that depends on itself or on a table that does.
    Cycle { name: Name },
    Limit { which: Which },
    OutOfMemory,
}

impl From<AllocError> for BlifRefusal {
    ghost from_gives = { λ _ e. e ≡ NoMemory };

    fn from(_: AllocError) -> BlifRefusal {
        BlifRefusal::OutOfMemory
    }
}
