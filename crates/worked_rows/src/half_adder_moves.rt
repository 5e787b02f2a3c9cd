//! The moves of the half adder, in order.
ghost use Rattle.semantics.specs.Net.{IsSmall};

use crate::nets::{HALF_ADDER, net};
use chain_semantics::moves::Move;
use net_core::net::Net;
use net_moves::moves::moves;
use std::alloc::{AllocError, Global};
use std::test::Fail;

/// Table 0 is the sum, signal 2, and table 1 the carry, signal 3.
const MOVES: [Move; 32] = [
    Move::Const { t: 0, value: false },
    Move::Const { t: 0, value: true },
    Move::DropRow { t: 0, row: 0 },
    Move::DropRow { t: 0, row: 1 },
    Move::DropLiteral {
        t: 0,
        row: 0,
        pin: 0,
    },
    Move::DropLiteral {
        t: 0,
        row: 0,
        pin: 1,
    },
    Move::DropLiteral {
        t: 0,
        row: 1,
        pin: 0,
    },
    Move::DropLiteral {
        t: 0,
        row: 1,
        pin: 1,
    },
    Move::Signal {
        t: 0,
        s: 0,
        flip: false,
    },
    Move::Signal {
        t: 0,
        s: 0,
        flip: true,
    },
    Move::Signal {
        t: 0,
        s: 1,
        flip: false,
    },
    Move::Signal {
        t: 0,
        s: 1,
        flip: true,
    },
    Move::Signal {
        t: 0,
        s: 3,
        flip: false,
    },
    Move::Signal {
        t: 0,
        s: 3,
        flip: true,
    },
    Move::Pair {
        t: 0,
        s: 0,
        flip_s: false,
        u: 1,
        flip_u: false,
        flip: false,
    },
    Move::Pair {
        t: 0,
        s: 0,
        flip_s: false,
        u: 1,
        flip_u: false,
        flip: true,
    },
    Move::Pair {
        t: 0,
        s: 0,
        flip_s: false,
        u: 1,
        flip_u: true,
        flip: false,
    },
    Move::Pair {
        t: 0,
        s: 0,
        flip_s: false,
        u: 1,
        flip_u: true,
        flip: true,
    },
    Move::Pair {
        t: 0,
        s: 0,
        flip_s: true,
        u: 1,
        flip_u: false,
        flip: false,
    },
    Move::Pair {
        t: 0,
        s: 0,
        flip_s: true,
        u: 1,
        flip_u: false,
        flip: true,
    },
    Move::Pair {
        t: 0,
        s: 0,
        flip_s: true,
        u: 1,
        flip_u: true,
        flip: false,
    },
    Move::Pair {
        t: 0,
        s: 0,
        flip_s: true,
        u: 1,
        flip_u: true,
        flip: true,
    },
    Move::Const { t: 1, value: false },
    Move::Const { t: 1, value: true },
    Move::DropLiteral {
        t: 1,
        row: 0,
        pin: 0,
    },
    Move::DropLiteral {
        t: 1,
        row: 0,
        pin: 1,
    },
    Move::Signal {
        t: 1,
        s: 0,
        flip: false,
    },
    Move::Signal {
        t: 1,
        s: 0,
        flip: true,
    },
    Move::Signal {
        t: 1,
        s: 1,
        flip: false,
    },
    Move::Signal {
        t: 1,
        s: 1,
        flip: true,
    },
    Move::Signal {
        t: 1,
        s: 2,
        flip: false,
    },
    Move::Signal {
        t: 1,
        s: 2,
        flip: true,
    },
];

/// Whether the moves of the net are these, in this order.
fn are_moves(alloc: Global, net: &Net, wanted: &[Move]) -> Result<bool, AllocError>
    requires { IsSmall net.now }
{
    let mut moves = moves(alloc, net)?;
    for a_move in wanted {
        if moves.next() != Some(*a_move) {
            return Ok(false);
        }
    }
    Ok(moves.next().is_none())
}

#[test]
fn moves_of_the_half_adder(rt: HostRuntime) -> Result<(), Fail> {
    let half_adder = net(rt.alloc(), HALF_ADDER)?;
    assert!(rt; are_moves(rt.alloc(), &half_adder, &MOVES)?);
    Ok(())
}
