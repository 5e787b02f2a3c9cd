//! The laws about moves, flips and cared-for inputs: each function's contract is a law.
ghost use Rattle.chain_semantics.specs.MoveLaws.{MoveLaw, FlipLaw, FlippedMoveLaw};
ghost use Rattle.chain_semantics.specs.MoveOrder.{MoveOrderLaw};
ghost use Rattle.chain_semantics.specs.MoveValues.{MovedValueLaw};
ghost use Rattle.chain_semantics.specs.NearLaws.{EachOnceLaw, NearLaw, OldMoveLaw};

/// Which moves a net has, and what each keeps and lowers.
pub fn moves()
    ensures { MoveLaw }
{}

/// What turning over a table changes.
pub fn flips()
    ensures { FlipLaw }
{}

/// A move changes the value of its table or leaves it: the outputs of the moved net in each case, and where
/// the move is broken.
pub fn flipped_moves()
    ensures { FlippedMoveLaw }
{}

/// What a move makes of its table, and the value of the moved table by kind.
pub fn moved_values()
    ensures { MovedValueLaw }
{}

/// The order of the moves of a net, which together with their conditions determines the list of moves.
pub fn order()
    ensures { MoveOrderLaw }
{}

/// The list of the numbers of a list, each at its first place.
pub fn each_once()
    ensures { EachOnceLaw }
{}

/// Which signals are near a table.
pub fn near_signals()
    ensures { NearLaw }
{}

/// The moves but those to two signals.
pub fn old_moves()
    ensures { OldMoveLaw }
{}
