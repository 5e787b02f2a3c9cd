//! The moves that drop a row.
ghost use Rattle.std.specs.Prelude.{◌≡◌, []};
ghost use Rattle.net_moves.specs.Left.{GivesFirst, rows_left};

use chain_semantics::moves::Move;
use std::marker::Model;

/// The rows that are left, from `row` up to `end`.
#[derive(Drop)]
pub(crate) struct RowMoves {
    t: u32,
    row: u32,
    end: u32,
}

impl Model for RowMoves {
    ghost use Rattle.std.specs.Prelude.{List};
    ghost use Rattle.chain_semantics.specs.declared.moves.Move.{Move};
    ghost use Rattle.net_moves.specs.Left.{rows_left};

    ghost Value = { List Move };

    ghost view = { λ a. rows_left a.t a.row a.end };
}

impl RowMoves {
    /// Each of `rows` rows.
    pub(crate) fn new(t: u32, rows: u32) -> RowMoves
        ensures { result ≡ rows_left t 0 rows }
    {
        RowMoves {
            t,
            row: 0,
            end: rows,
        }
    }

    pub(crate) fn next(&mut self) -> Option<Move>
        ensures { GivesFirst self.old result self.new }
    {
        if self.row >= self.end {
            return None;
        }
        let row = self.row;
        self.row += 1;
        Some(Move::DropRow { t: self.t, row })
    }
}
