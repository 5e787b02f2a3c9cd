//! The moves of one table, kind after kind.
ghost use Rattle.std.specs.Prelude.{◌≡◌, ◌<◌, [], IfOk};
ghost use Rattle.semantics.specs.Net.{IsSmall, table_at, table_count, signal_count};
ghost use Rattle.net_moves.specs.Left.{GivesFirst, offered};

use crate::constants::ConstantMoves;
use crate::literals::LiteralMoves;
use crate::pairs::PairMoves;
use crate::rows::RowMoves;
use crate::signals::SignalMoves;
use chain_semantics::moves::Move;
use net_core::net::Net;
use std::alloc::{AllocError, Global};
use std::marker::Model;

/// The moves of a table that are left.
#[derive(Drop)]
pub(crate) struct TableMoves<'a> {
    constants: ConstantMoves,
    rows: RowMoves,
    literals: LiteralMoves<'a>,
    signals: SignalMoves,
    pairs: PairMoves,
}

impl<'a> Model for TableMoves<'a> {
    ghost use Rattle.std.specs.Prelude.{◌++◌};
    ghost use Rattle.net_moves.specs.Left.{RoomAndMoves};

    ghost Value = { RoomAndMoves };

    ghost view = { λ a. record {
      room = a.signals.room;
      left = a.constants ++ a.rows ++ a.literals ++ a.signals.left ++ a.pairs;
    } };
}

impl<'a> TableMoves<'a> {
    /// No moves, with room for the moves of each table of a net.
    pub(crate) fn none(alloc: Global, net: &Net) -> Result<TableMoves<'a>, AllocError>
        ensures { IfOk result (λ moves. moves ≡ record { room = signal_count net.now; left = [] }) }
    {
        Ok(TableMoves {
            constants: ConstantMoves::none(),
            rows: RowMoves::new(0, 0),
            literals: LiteralMoves::new(0, &[]),
            signals: SignalMoves::none(alloc, net)?,
            pairs: PairMoves::none(),
        })
    }

    /// Starts with all moves of a table, or with all but those to two signals.
    pub(crate) fn start(&mut self, net: &'a Net, t: u32, pairs: bool)
        requires small { IsSmall net.now }
        requires room { self.old.room ≡ signal_count net.now }
        requires table { t < table_count net.now }
        ensures { self.new ≡ record self.old { left = offered pairs net.now t (table_at net.now.tables t) } }
    {
        let table = net.table(t);
        let literals = table.literals();
        let rows = table.rows().len() as u32;
        self.constants = if literals > 0 {
            ConstantMoves::new(t)
        } else {
            ConstantMoves::none()
        };
        self.rows = RowMoves::new(t, if rows > 1 { rows } else { 0 });
        self.literals = LiteralMoves::new(t, table.rows().as_slice());
        if literals > 1 {
            self.signals.start(net, t);
        } else {
            self.signals.clear();
        }
        if pairs && literals > 2 && table.pins().len() > 1 {
            self.pairs.start(net, t);
        } else {
            self.pairs.clear();
        }
    }

    pub(crate) fn next(&mut self) -> Option<Move>
        ensures given { GivesFirst self.old.left result self.new.left }
        ensures room { self.new.room ≡ self.old.room }
    {
        if let Some(constant) = self.constants.next() {
            return Some(constant);
        }
        if let Some(row) = self.rows.next() {
            return Some(row);
        }
        if let Some(literal) = self.literals.next() {
            return Some(literal);
        }
        if let Some(signal) = self.signals.next() {
            return Some(signal);
        }
        self.pairs.next()
    }
}
