//! The moves that drop a literal.
ghost use Rattle.std.specs.Prelude.{◌≡◌, ◌+◌, ◌^◌, ◌<◌, [], ◌∷◌, drop, length, MatchOption, IfSome};
ghost use Rattle.chain_semantics.specs.Moves.{literal_pins, literal_moves};
ghost use Rattle.net_moves.specs.Left.{GivesFirst, literals_left, AreCountable};

use chain_semantics::moves::Move;
use net_core::mark::Mark;
use net_core::row::Row;
use net_core::table::is_literal;
use std::marker::Model;

/// The literals that are left in the rows of a table, from pin `pin` of row `row` on.
#[derive(Drop)]
pub(crate) struct LiteralMoves<'a> {
    t: u32,
    rows: &'a [Row],
    row: u32,
    pin: u32,
}

impl<'a> Model for LiteralMoves<'a> {
    ghost use Rattle.std.specs.Prelude.{List, drop};
    ghost use Rattle.chain_semantics.specs.declared.moves.Move.{Move};
    ghost use Rattle.net_moves.specs.Left.{literals_left, AreCountable};

    ghost Value = { List Move };

    ghost view = { λ a. literals_left a.t a.row a.pin (drop a.row a.rows.now) };

    ghost invariant = { λ a. AreCountable a.rows.now };
}

/// The first literal of a row from a pin on.
fn first_literal(marks: &[Mark], from: u32) -> Option<u32>
    requires { length marks.now < 2 ^ 32 }
    ensures found { MatchOption result (literal_pins from (drop from marks.now) ≡ [])
        (λ p. literal_pins from (drop from marks.now) ≡ p ∷ literal_pins (p + 1) (drop (p + 1) marks.now)) }
    ensures within { IfSome result (λ p. p < length marks.now) }
{
    for pin in from..marks.len() as u32 {
        if is_literal(marks[pin as usize]) {
            return Some(pin);
        }
    }
    None
}

impl<'a> LiteralMoves<'a> {
    /// Each literal of these rows.
    pub(crate) fn new(t: u32, rows: &'a [Row]) -> LiteralMoves<'a>
        requires { AreCountable rows.now }
        ensures { result ≡ literal_moves t 0 rows.now }
    {
        LiteralMoves {
            t,
            rows,
            row: 0,
            pin: 0,
        }
    }

    pub(crate) fn next(&mut self) -> Option<Move>
        ensures { GivesFirst self.old result self.new }
    {
        while (self.row as usize) < self.rows.len() {
            if let Some(pin) = first_literal(self.rows[self.row as usize].as_slice(), self.pin) {
                self.pin = pin + 1;
                return Some(Move::DropLiteral {
                    t: self.t,
                    row: self.row,
                    pin,
                });
            }
            self.row += 1;
            self.pin = 0;
        }
        None
    }
}
