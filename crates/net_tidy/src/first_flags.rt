//! The flags at the beginning: one pass over the pins marks the signals that are read, and then each table is
//! tried once.
ghost use Rattle.std.specs.Prelude.{◌≡◌, ◌<◌, ◌||◌, ℕ, false, length, slice_index_or, All, IfOk};
ghost use Rattle.semantics.specs.Net.{table_count, signal_count};
ghost use Rattle.chain_semantics.specs.TidyRules.{has, is_read};
ghost use Rattle.net_tidy.specs.Rule.{rule_at};
ghost use Rattle.net_tidy.specs.Flags.{IsFlagged};

use crate::flags::Flags;
use crate::net_rules::constant_pin;
use crate::rule::Rule;
use crate::rules::rule_by;
use net_core::items::Signal;
use net_core::net::Net;
use std::alloc::{AllocError, Global};

/// Marks these signals.
fn mark(signals: &[Signal], marks: &mut [bool])
    requires { All (λ s. s < length marks.old) signals.now }
    ensures { (s : ℕ) → slice_index_or marks.new s false
        ≡ (has signals.now s || slice_index_or marks.old s false) }
{
    for signal in signals {
        marks[*signal as usize] = true;
    }
}

/// Marks the signals that some table reads.
fn mark_read(net: &Net, marks: &mut [bool])
    requires room { length marks.old ≡ signal_count net.now }
    requires clear { (s : ℕ) → slice_index_or marks.old s false ≡ false }
    ensures { (s : ℕ) → slice_index_or marks.new s false ≡ is_read net.now.tables s }
{
    for t in 0..net.tables() {
        mark(net.table(t).pins().as_slice(), marks);
    }
}

/// The first rule that applies at a table, by marks of what is read and of what is an output.
fn marked_rule_at(net: &Net, t: u32, read: &[bool], output: &[bool]) -> Option<Rule>
    requires within { t < table_count net.now }
    requires read_room { length read.now ≡ signal_count net.now }
    requires output_room { length output.now ≡ signal_count net.now }
    requires read { (s : ℕ) → slice_index_or read.now s false ≡ is_read net.now.tables s }
    requires output { (s : ℕ) → slice_index_or output.now s false ≡ has net.now.outputs s }
    ensures { result ≡ rule_at net.now t }
{
    let table = net.table(t);
    let s = (net.inputs() + t) as usize;
    rule_by(
        constant_pin(net, table),
        table.pins().as_slice(),
        table.rows().as_slice(),
        table.plane(),
        output[s],
        read[s],
    )
}

/// Takes down the flag of a table at which no rule applies.
fn settle_at(net: &Net, t: u32, read: &[bool], output: &[bool], flags: &mut Flags)
    requires within { t < table_count net.now }
    requires read_room { length read.now ≡ signal_count net.now }
    requires output_room { length output.now ≡ signal_count net.now }
    requires read { (s : ℕ) → slice_index_or read.now s false ≡ is_read net.now.tables s }
    requires output { (s : ℕ) → slice_index_or output.now s false ≡ has net.now.outputs s }
    requires flagged { IsFlagged net.now flags.old }
    ensures { IsFlagged net.now flags.new }
{
    let None = marked_rule_at(net, t, read, output) else {
        return;
    };
    flags.take_down(t);
}

/// A flag for each table, raised where a rule applies.
pub(crate) fn first_flags(alloc: Global, net: &Net) -> Result<Flags, AllocError>
    ensures { IfOk result (IsFlagged net.now) }
{
    let signals = net.signals() as usize;
    let mut read = vec![in alloc; false; signals]?;
    mark_read(net, &mut read);
    let mut output = vec![in alloc; false; signals]?;
    mark(net.output_signals(), &mut output);
    let mut flags = Flags::raised(alloc, net.tables() as usize)?;
    for t in 0..net.tables() {
        settle_at(net, t, &read, &output, &mut flags);
    }
    Ok(flags)
}
