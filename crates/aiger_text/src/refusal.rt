//! Why a text is not read. Source: AIGER; what is refused, and in which order, is this tool's own.
ghost use Rattle.std.specs.Prelude.{◌≡◌};
ghost use Rattle.aiger_text.specs.declared.refusal.AigerRefusal.TheVariants.{OutOfMemory as NoMemory};
ghost use Rattle.aiger_text.specs.Refusals.{refusal_number};

use net_core::name::Name;
use semantics::which::Which;
use std::alloc::AllocError;

/// Why a text is refused, in the order in which it is tested; want of memory may come at any point. Lines are
/// counted from 1.
#[derive(Debug, Drop)]
pub enum AigerRefusal {
    /// The text has more bytes than the limit.
    TextLong,
    /// The first line is no header.
    Header,
    /// The header announces latches.
    Latches,
    /// A line of an input, an output or an AND that is missing or lacks its form.
    Line(u64),
    /// A further line that is no symbol, or is a second symbol for the same place.
    Symbol(u64),
    /// A variable that is defined twice.
    Twice(u32),
    /// A variable that an AND or an output uses and nothing defines.
    Undefined(u32),
    NoOutput,
    /// The variable of the first AND that depends on itself or on an AND that does.
    Loop(u32),
    /// Two signals of the net would have this name.
    Doubled(Name),
    /// The net passes a limit.
    Limit(Which),
    OutOfMemory,
}

impl AigerRefusal {
    /// The place of the refusal in the order in which refusals are tested, from 1.
    pub fn number(&self) -> u8
        ensures { result ≡ refusal_number self.now }
    {
        match self {
            AigerRefusal::TextLong => 1,
            AigerRefusal::Header => 2,
            AigerRefusal::Latches => 3,
            AigerRefusal::Line(_) => 4,
            AigerRefusal::Symbol(_) => 5,
            AigerRefusal::Twice(_) => 6,
            AigerRefusal::Undefined(_) => 7,
            AigerRefusal::NoOutput => 8,
            AigerRefusal::Loop(_) => 9,
            AigerRefusal::Doubled(_) => 10,
            AigerRefusal::Limit(_) => 11,
            AigerRefusal::OutOfMemory => 12,
        }
    }
}

impl From<AllocError> for AigerRefusal {
    ghost from_gives = { λ _ e. e ≡ NoMemory };

    fn from(_: AllocError) -> AigerRefusal {
        AigerRefusal::OutOfMemory
    }
}
