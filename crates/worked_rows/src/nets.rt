//! Nets of texts, a multiplier, and moves.
ghost use Rattle.std.specs.Prelude.{IfOk, IfSome, Contains};
ghost use Rattle.semantics.specs.Net.{IsSmall};
ghost use Rattle.chain_semantics.specs.Moves.{moves_of};

use blif_text::reading::read_blif;
use chain_semantics::moves::Move;
use net_core::net::Net;
use net_moves::moves::moves;
use std::alloc::{AllocError, Global};
use std::test::Fail;
use word_nets::multiplier::mul_net;

/// A half adder.
pub const HALF_ADDER: &[u8] =
    b".model ha\n.inputs a b\n.outputs s c\n.names a b s\n10 1\n01 1\n.names a b c\n11 1\n.end\n";

/// The net of a text that is accepted.
pub fn net(alloc: Global, text: &[u8]) -> Result<Net, Fail>
    ensures { IfOk result IsSmall }
{
    match read_blif(alloc, text, 10_000) {
        Ok(net) => Ok(net),
        Err(_) => Err(Fail::new("the text is refused")),
    }
}

/// The move, where it is one of the net's.
pub fn move_of(alloc: Global, net: &Net, wanted: Move) -> Result<Option<Move>, AllocError>
    requires { IsSmall net.now }
    ensures { IfOk result (λ found. IfSome found (Contains (moves_of net.now))) }
{
    let mut moves = moves(alloc, net)?;
    while let Some(a_move) = moves.next() {
        if a_move == wanted {
            return Ok(Some(a_move));
        }
    }
    Ok(None)
}

/// The product of two words of five bits.
pub fn product(alloc: Global) -> Result<Net, AllocError>
    ensures { IfOk result IsSmall }
{
    mul_net(alloc, 5)
}
