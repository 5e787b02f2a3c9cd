//! The laws about what a text means: each function's contract is a law.
ghost use Rattle.blif_semantics.specs.LineLaws.{JoinLaw, ListLaw, RowLaw};
ghost use Rattle.blif_semantics.specs.RefusalOrder.{RefusalOrderLaw};
ghost use Rattle.blif_semantics.specs.Laws.{TextLaw, FirstRefusalLaw, PlaneLaw, NamedNetLaw, ReadingLaw};
ghost use Rattle.blif_semantics.specs.Laws.{WrittenLaw};

/// What the bytes of a text mean, and what means nothing.
pub fn texts()
    ensures { TextLaw }
{}

/// Each refusal tells the first of its kind.
pub fn first_refusals()
    ensures { FirstRefusalLaw }
{}

/// Which refusal is told, where several hold, and what is read.
pub fn refusal_order()
    ensures { RefusalOrderLaw }
{}

/// Lines that a backslash joins.
pub fn joined_lines()
    ensures { JoinLaw }
{}

/// Lists of names in several lines.
pub fn lists()
    ensures { ListLaw }
{}

/// Which table a row belongs to, where it is judged and where it is read.
pub fn rows()
    ensures { RowLaw }
{}

/// The plane of a table is that of each row.
pub fn planes()
    ensures { PlaneLaw }
{}

/// Nets of names against their numbered parts.
pub fn named_nets()
    ensures { NamedNetLaw }
{}

/// What is read is a small sound net.
pub fn readings()
    ensures { ReadingLaw }
{}

/// What is written is read back.
pub fn written()
    ensures { WrittenLaw }
{}
