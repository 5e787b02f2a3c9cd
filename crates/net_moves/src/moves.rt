//! The moves of a net, all of them or the old ones, which are those but the moves to two signals.
ghost use Rattle.std.specs.Prelude.{◌≡◌, IfOk};
ghost use Rattle.semantics.specs.Net.{IsSmall};
ghost use Rattle.chain_semantics.specs.Moves.{moves_from, moves_of, old_moves_of};
ghost use Rattle.net_moves.specs.Left.{offered};

use crate::list::Moves;
use crate::table_moves::TableMoves;
use net_core::net::Net;
use std::alloc::{AllocError, Global};

/// The moves of a net, in order, with or without those to two signals.
fn moves_with(alloc: Global, net: &Net, pairs: bool) -> Result<Moves<'_>, AllocError>
    requires { IsSmall net.now }
    ensures { IfOk result (λ moves. moves ≡ moves_from (offered pairs net.now) 0 net.now.tables) }
{
    Ok(Moves {
        net,
        pairs,
        table: 0,
        moves: TableMoves::none(alloc, net)?,
    })
}

/// All moves of a net, in order: table by table, and in each table the constants, the rows, the literals, the
/// signals and the pairs of signals.
pub fn moves(alloc: Global, net: &Net) -> Result<Moves<'_>, AllocError>
    requires { IsSmall net.now }
    ensures { IfOk result (λ moves. moves ≡ moves_of net.now) }
{
    moves_with(alloc, net, true)
}

/// The moves of a net but those to two signals, in the same order.
pub fn old_moves(alloc: Global, net: &Net) -> Result<Moves<'_>, AllocError>
    requires { IsSmall net.now }
    ensures { IfOk result (λ moves. moves ≡ old_moves_of net.now) }
{
    moves_with(alloc, net, false)
}
