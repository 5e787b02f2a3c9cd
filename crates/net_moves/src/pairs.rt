//! The moves that put the conjunction of two signals in the place of a table.
ghost use Rattle.std.specs.Prelude.{◌≡◌, ◌+◌, ◌<◌, List, [], ◌∷◌, ◌++◌, drop, flat_map};
ghost use Rattle.semantics.specs.Net.{table_at, table_count};
ghost use Rattle.chain_semantics.specs.declared.moves.Move.{Move};
ghost use Rattle.chain_semantics.specs.Moves.{near_signals, pairs_of, flips_of};
ghost use Rattle.net_moves.specs.Left.{GivesFirst, flips_of_pair};

use crate::near::NearSignals;
use chain_semantics::moves::Move;
use net_core::items::Signal;
use net_core::net::Net;
use std::marker::Model;

/// The number of moves to two signals.
const FLIPS: u32 = 8;

/// The pairs of near signals that are left: the pairs from the places `first` and `second` on, and for that
/// pair the moves from the one numbered `flips` on.
#[derive(Drop)]
pub(crate) struct PairMoves {
    t: u32,
    near: NearSignals,
    first: usize,
    second: usize,
    flips: u32,
}

impl Model for PairMoves {
    ghost use Rattle.std.specs.Prelude.{List, ◌<◌, length};
    ghost use Rattle.chain_semantics.specs.declared.moves.Move.{Move};
    ghost use Rattle.net_moves.specs.Left.{pairs_left, ArePlaces};

    ghost Value = { List Move };

    ghost view = { λ a. pairs_left a.t a.near a.first a.second a.flips };

    ghost invariant = { λ a. ArePlaces (length a.near) a.first a.second × a.flips < 8 };
}

/// The move to two signals with this number, from 0 to 7.
fn pair_move(t: u32, s: Signal, u: Signal, flips: u32) -> Move
    requires { flips < 8 }
    ensures { (rest : List Move)
        → drop flips (flips_of t s u ++ rest) ≡ result ∷ drop (flips + 1) (flips_of t s u ++ rest) }
{
    Move::Pair {
        t,
        s,
        flip_s: flips >= 4,
        u,
        flip_u: flips % 4 >= 2,
        flip: flips % 2 == 1,
    }
}

impl PairMoves {
    pub(crate) fn none() -> PairMoves
        ensures { result ≡ [] }
    {
        PairMoves {
            t: 0,
            near: NearSignals::new(),
            first: 0,
            second: 1,
            flips: 0,
        }
    }

    /// Leaves no moves.
    pub(crate) fn clear(&mut self)
        ensures { self.new ≡ [] }
    {
        self.near.clear();
        self.first = 0;
        self.second = 1;
        self.flips = 0;
    }

    /// Starts again with the pairs of the signals near a table.
    pub(crate) fn start(&mut self, net: &Net, t: u32)
        requires { t < table_count net.now }
        ensures { self.new ≡ flat_map (flips_of_pair t)
            (pairs_of (near_signals net.now (table_at net.now.tables t))) }
    {
        self.near.find(net, t);
        self.t = t;
        self.first = 0;
        self.second = 1;
        self.flips = 0;
    }

    pub(crate) fn next(&mut self) -> Option<Move>
        ensures { GivesFirst self.old result self.new }
    {
        if self.second >= self.near.len() {
            return None;
        }
        let s = self.near.get(self.first);
        let u = self.near.get(self.second);
        let a_move = pair_move(self.t, s, u, self.flips);
        self.flips += 1;
        if self.flips < FLIPS {
            return Some(a_move);
        }
        self.flips = 0;
        self.second += 1;
        if self.second == self.near.len() {
            self.first += 1;
            self.second = self.first + 1;
        }
        Some(a_move)
    }
}
