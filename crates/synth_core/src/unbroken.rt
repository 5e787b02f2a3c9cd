//! The moves that no vector of the pool breaks. Some vector breaks most moves, so this is the inner loop of
//! the search, and it makes no net.
ghost use Rattle.std.specs.Prelude.{◌≡◌, ◌<◌, length, IfOk, IfSome};
ghost use Rattle.synth_core.specs.AllowedMoves.{IsSearched, IsNextUnbroken};

use care_masks::growing::GrowingMasks;
use chain_semantics::moves::Move;
use net_moves::apply::table_of;
use net_moves::list::Moves;
use progress::progress::Progress;
use std::alloc::AllocError;

/// Tells `progress` that moves of `table`, one of `tables` tables, are tried now, where `told` is another
/// table or none.
fn tell_table<P: Progress>(told: &mut Option<u32>, table: u32, tables: u32, progress: &mut P) {
    if *told != Some(table) {
        *told = Some(table);
        progress.trying(table, tables);
    }
}

/// The next of the moves that no vector of the masks breaks. Tells `progress` each table as its moves begin.
pub(crate) fn next_unbroken<P: Progress>(
    moves: &mut Moves,
    masks: &mut GrowingMasks,
    tables: u32,
    told: &mut Option<u32>,
    progress: &mut P,
) -> Result<Option<Move>, AllocError>
    requires searched { IsSearched masks.old moves.old }
    ensures same { masks.new ≡ masks.old }
    ensures fewer { IfOk result (λ found. IfSome found (λ _. length moves.new < length moves.old)) }
    ensures next { IfOk result (IsNextUnbroken masks.old moves.new) }
{
    while let Some(candidate) = moves.next() {
        tell_table(told, table_of(candidate), tables, progress);
        let Some(_) = masks.breaks(candidate)? else {
            return Ok(Some(candidate));
        };
    }
    Ok(None)
}
