//! The moves that make a table constant.
ghost use Rattle.net_moves.specs.Left.{GivesFirst, constants_left};
ghost use Rattle.std.specs.Prelude.{◌≡◌, false, []};

use chain_semantics::moves::Move;
use std::marker::Model;

/// The constants that are left, from the constant `value` on.
#[derive(Drop)]
pub(crate) struct ConstantMoves {
    t: u32,
    value: Option<bool>,
}

impl Model for ConstantMoves {
    ghost use Rattle.std.specs.Prelude.{List};
    ghost use Rattle.chain_semantics.specs.declared.moves.Move.{Move};
    ghost use Rattle.net_moves.specs.Left.{constants_left};

    ghost Value = { List Move };

    ghost view = { λ a. constants_left a.t a.value };
}

impl ConstantMoves {
    /// Both constants, the 0 first.
    pub(crate) fn new(t: u32) -> ConstantMoves
        ensures { result ≡ constants_left t (Some false) }
    {
        ConstantMoves {
            t,
            value: Some(false),
        }
    }

    pub(crate) fn none() -> ConstantMoves
        ensures { result ≡ [] }
    {
        ConstantMoves { t: 0, value: None }
    }

    pub(crate) fn next(&mut self) -> Option<Move>
        ensures { GivesFirst self.old result self.new }
    {
        let value = self.value?;
        self.value = if value { None } else { Some(true) };
        Some(Move::Const { t: self.t, value })
    }
}
