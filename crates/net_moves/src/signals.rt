//! The moves that put a signal, or its opposite, in the place of a table.
ghost use Rattle.std.specs.Prelude.{◌≡◌, ◌<◌, [], length, IfOk};
ghost use Rattle.semantics.specs.Net.{table_count, signal_count};
ghost use Rattle.chain_semantics.specs.Moves.{copies_of, independent_signals};
ghost use Rattle.std.specs.List.{flat_map};
ghost use Rattle.net_moves.specs.Left.{GivesFirst, signals_left};

use chain_semantics::moves::Move;
use net_core::items::Signal;
use net_core::net::Net;
use std::alloc::{AllocError, Global};
use std::marker::Model;

/// The signals that are left, from `signal` on; where `flip` is set, of the first only the opposite is left.
/// A marked signal depends on the table.
#[derive(Drop)]
pub(crate) struct SignalMoves {
    t: u32,
    marks: Vec<bool>,
    signal: Signal,
    flip: bool,
}

impl Model for SignalMoves {
    ghost use Rattle.std.specs.Prelude.{◌≡◌, ◌<◌, ◌^◌, ◌≤◌, true, length};
    ghost use Rattle.net_moves.specs.Left.{RoomAndMoves, signals_left};

    ghost Value = { RoomAndMoves };

    ghost view = { λ a. record {
      room = length a.marks.items;
      left = signals_left a.t a.signal a.flip a.marks.items;
    } };

    ghost invariant = { λ a. length a.marks.items < 2 ^ 31 × (a.signal ≤ length a.marks.items)
        × (a.flip ≡ true → a.signal < length a.marks.items) };
}

impl SignalMoves {
    /// No moves, with room for the signals of a net.
    pub(crate) fn none(alloc: Global, net: &Net) -> Result<SignalMoves, AllocError>
        ensures { IfOk result (λ moves. moves ≡ record { room = signal_count net.now; left = [] }) }
    {
        let marks = vec![in alloc; false; net.signals() as usize]?;
        Ok(SignalMoves {
            t: 0,
            marks,
            signal: net.signals(),
            flip: false,
        })
    }

    /// Leaves no moves.
    pub(crate) fn clear(&mut self)
        ensures { self.new ≡ record self.old { left = [] } }
    {
        self.signal = self.marks.len() as u32;
        self.flip = false;
    }

    /// Starts again with the signals that do not depend on a table.
    pub(crate) fn start(&mut self, net: &Net, t: u32)
        requires room { self.old.room ≡ signal_count net.now }
        requires table { t < table_count net.now }
        ensures { self.new ≡ record
            self.old { left = flat_map (copies_of t) (independent_signals net.now t) } }
    {
        net.mark_dependents(t, &mut self.marks);
        self.t = t;
        self.signal = 0;
        self.flip = false;
    }

    pub(crate) fn next(&mut self) -> Option<Move>
        ensures given { GivesFirst self.old.left result self.new.left }
        ensures room { self.new.room ≡ self.old.room }
    {
        if self.flip {
            let s = self.signal;
            self.flip = false;
            self.signal += 1;
            return Some(Move::Signal {
                t: self.t,
                s,
                flip: true,
            });
        }
        while (self.signal as usize) < self.marks.len() {
            if !self.marks[self.signal as usize] {
                self.flip = true;
                return Some(Move::Signal {
                    t: self.t,
                    s: self.signal,
                    flip: false,
                });
            }
            self.signal += 1;
        }
        None
    }
}
