//! A list of moves of a net, given one after another.
ghost use Rattle.net_moves.specs.Left.{GivesFirst};

use crate::table_moves::TableMoves;
use chain_semantics::moves::Move;
use net_core::net::Net;
use std::marker::Model;

/// The moves of a net that are left: those of the table at hand, and those of the tables from `table` on;
/// with or without moves to two signals.
#[derive(Drop)]
pub struct Moves<'a> {
    pub(crate) net: &'a Net,
    pub(crate) pairs: bool,
    pub(crate) table: u32,
    pub(crate) moves: TableMoves<'a>,
}

impl<'a> Model for Moves<'a> {
    ghost use Rattle.std.specs.Prelude.{◌≡◌, List, ◌++◌, drop};
    ghost use Rattle.semantics.specs.Net.{IsSmall, signal_count};
    ghost use Rattle.chain_semantics.specs.declared.moves.Move.{Move};
    ghost use Rattle.chain_semantics.specs.Moves.{moves_from};
    ghost use Rattle.net_moves.specs.Left.{offered};

    ghost Value = { List Move };

    ghost view = { λ a. a.moves.left
        ++ moves_from (offered a.pairs a.net.now) a.table (drop a.table a.net.now.tables) };

    ghost invariant = { λ a. IsSmall a.net.now × (a.moves.room ≡ signal_count a.net.now) };
}

impl<'a> Moves<'a> {
    /// The next move, or None behind the last. The call takes no memory.
    pub fn next(&mut self) -> Option<Move>
        ensures { GivesFirst self.old result self.new }
    {
        while self.table < self.net.tables() {
            if let Some(a_move) = self.moves.next() {
                return Some(a_move);
            }
            self.moves.start(self.net, self.table, self.pairs);
            self.table += 1;
        }
        self.moves.next()
    }
}
