//! The simulation of a net at many patterns at once, as it is and with a table turned over.
ghost use Rattle.std.specs.Prelude.{◌≡◌, ◌<◌, ◌≤◌, ℕ, List, Bool, length, slice_index, IfOk};
ghost use Rattle.semantics.specs.Net.{input_count, table_count, signal_count};
ghost use Rattle.sim_core.specs.NetRows.{row_at, AreWide, IsForNet, IsNetSimulation, HaveFlipped};

use crate::net_rows::{Room, eval_rows, flip_rows, restore_rows, set_input_rows};
use crate::signal_row::SignalRow;
use lane_bits::kernels::word_count;
use lane_bits::patterns::Patterns;
use net_core::items::Signal;
use net_core::net::Net;
use std::alloc::{AllocError, Global};
use std::marker::Model;

/// A row for each signal, one bit for each pattern; and for each signal another row, where a table is turned
/// over, with a mark where the two rows may differ.
#[derive(Drop)]
pub struct FlipSim {
    count: u64,
    outputs: Vec<Signal>,
    rows: Vec<SignalRow>,
    flipped: Vec<SignalRow>,
    marks: Vec<bool>,
    room: Room,
}

impl Model for FlipSim {
    ghost use Rattle.sim_core.specs.NetRows.{FlipValue, AreKept, FitsRoom};

    ghost Value = { FlipValue };

    ghost view = { λ s. record {
      count = s.count;
      outputs = s.outputs.items;
      rows = s.rows.items;
      flipped = s.flipped.items;
    } };

    ghost invariant = { λ s. AreKept s.count s.rows.items s.flipped.items s.marks.items
        × FitsRoom s.count s.room };
}

/// `rows` rows of `words` words.
fn empty_rows(alloc: Global, rows: usize, words: usize) -> Result<Vec<SignalRow>, AllocError>
    ensures count { IfOk result (λ list. length list.items ≡ rows) }
    ensures wide { IfOk result (λ list. AreWide words list.items) }
{
    let mut list = Vec::new(alloc);
    for _row in 0..rows {
        list.push(SignalRow::new(alloc, words)?)?;
    }
    Ok(list)
}

/// Room to compute the row of a table.
fn room_for(alloc: Global, words: usize) -> Result<Room, AllocError>
    ensures cube { IfOk result (λ room. length room.cube ≡ words) }
    ensures cover { IfOk result (λ room. length room.cover ≡ words) }
{
    Ok(Room {
        cube: SignalRow::new(alloc, words)?,
        cover: SignalRow::new(alloc, words)?,
    })
}

impl FlipSim {
    /// Room for the rows of a net at these patterns.
    pub fn reserve(alloc: Global, net: &Net, patterns: &Patterns) -> Result<FlipSim, AllocError>
        ensures { IfOk result (IsForNet net.now patterns.now.vectors) }
    {
        let count = patterns.count();
        let words = word_count(count) as usize;
        let signals = net.signals() as usize;
        let rows = empty_rows(alloc, signals, words)?;
        let flipped = empty_rows(alloc, signals, words)?;
        let room = room_for(alloc, words)?;
        let outputs = vec![in alloc; 0; net.outputs() as usize]?;
        let marks = vec![in alloc; true; signals]?;
        Ok(FlipSim {
            count,
            outputs,
            rows,
            flipped,
            marks,
            room,
        })
    }

    /// Computes the values of the signals at all patterns. The rows that the last `run_flipped` left stay.
    /// The call takes no memory.
    pub fn run(&mut self, net: &Net, patterns: &Patterns)
        requires inputs { patterns.now.inputs ≡ input_count net.now }
        requires room { IsForNet net.now patterns.now.vectors self.old }
        ensures simulation { IsNetSimulation net.now patterns.now.vectors self.new }
        ensures flipped { self.new.flipped ≡ self.old.flipped }
    {
        net.see_sound();
        self.outputs.copy_from_slice(net.output_signals());
        self.marks.fill(true);
        set_input_rows(&mut self.rows, patterns);
        eval_rows(net, self.count, &mut self.rows, &mut self.room);
    }

    /// The row of a signal: after `run`, bit p is the signal's value at pattern p, and the bits past the last
    /// pattern are 0.
    pub fn signal(&self, s: Signal) -> &[u64]
        requires { s < length self.now.rows }
        ensures { result.now ≡ row_at self.now.rows s }
    {
        self.rows[s as usize].as_slice()
    }

    /// Computes the values again, with table `t` turned over at every pattern: only tables that depend on `t`
    /// are evaluated. The rows that `signal` gives stay. The call takes no memory.
    pub fn run_flipped(&mut self, net: &Net, t: u32)
        requires table { t < table_count net.now }
        requires rows { length self.old.rows ≡ signal_count net.now }
        ensures same { self.new ≡ record self.old { flipped = self.new.flipped } }
        ensures flipped { (vectors : List (List Bool)) → IsNetSimulation net.now vectors self.old
            → HaveFlipped net.now vectors t self.new.flipped }
    {
        restore_rows(&mut self.flipped, &self.marks, &self.rows);
        net.mark_dependents(t, &mut self.marks);
        flip_rows(
            net,
            t,
            &self.marks,
            self.count,
            &mut self.flipped,
            &mut self.room,
        );
    }

    /// The row of an output, as the last `run_flipped` left it.
    pub fn flipped(&self, output: u32) -> &[u64]
        requires output { output < length self.now.outputs }
        requires signal { slice_index self.now.outputs output < length self.now.flipped }
        ensures { result.now ≡ row_at self.now.flipped (slice_index self.now.outputs output) }
    {
        self.flipped[self.outputs[output as usize] as usize].as_slice()
    }
}
