//! Copies of the tables of a net, with other names and other pins.
ghost use Rattle.std.specs.Prelude.{◌≡◌, ℕ, ◌+◌, ◌<◌, ◌^◌, ◌∷◌, ◌++◌, map, codes, All, IfOk, OnOk};
ghost use Rattle.std.specs.List.{range_with_len};
ghost use Rattle.semantics.specs.Net.{IsNameByte};
ghost use Rattle.quality_semantics.specs.Joint.{copied};
ghost use Rattle.miter.specs.Copies.{placed, copy_at};

use net_core::items::{Signal, SignalList, TableList};
use net_core::name::Name;
use net_core::net::Net;
use net_core::table::Table;
use std::alloc::{AllocError, Global};

/// The name of the model.
pub fn model_name(alloc: Global) -> Result<Name, AllocError>
    ensures { IfOk result (λ name. name ≡ codes "joint") }
{
    Name::known(alloc, b"joint")
}

/// The numbers of `count` signals, from 0.
pub fn first_signals(alloc: Global, count: u32) -> Result<Vec<Signal>, AllocError>
    ensures { IfOk result (λ signals. signals.items ≡ range_with_len 0 count) }
{
    (0..count).collect(alloc)
}

/// Where a signal of a net stands: an input at its signal in `inputs`, and the tables one behind another from
/// `first` on.
fn placed(inputs: &[Signal], first: Signal, signal: Signal) -> Signal
    requires { first + signal < 2 ^ 32 }
    ensures { result ≡ placed inputs.now first signal }
{
    let at = signal as usize;
    if at < inputs.len() {
        inputs[at]
    } else {
        first + (signal - inputs.len() as u32)
    }
}

/// The places of the signals.
fn placed_signals(
    alloc: Global,
    inputs: &[Signal],
    first: Signal,
    signals: &[Signal],
) -> Result<SignalList, AllocError>
    requires { All (λ s. first + s < 2 ^ 32) signals.now }
    ensures { IfOk result (λ list. list ≡ map (placed inputs.now first) signals.now) }
{
    let mut list = SignalList::new(alloc);
    for signal in signals {
        list.push(placed(inputs, first, *signal))?;
    }
    Ok(list)
}

/// Adds the signals of the net's outputs at the end, each by its place.
pub fn push_outputs(
    list: &mut SignalList,
    inputs: &[Signal],
    first: Signal,
    net: &Net,
) -> Result<(), AllocError>
    requires { first < 2 ^ 31 }
    ensures { OnOk result (list.new ≡ list.old ++ map (placed inputs.now first) net.now.outputs) }
{
    for i in 0..net.outputs() {
        list.push(placed(inputs, first, net.output(i)))?;
    }
    Ok(())
}

/// A copy of a table, named by the letter and its number.
fn copied_table(
    alloc: Global,
    letter: u8,
    number: u32,
    inputs: &[Signal],
    first: Signal,
    table: &Table,
) -> Result<Table, AllocError>
    requires letter { IsNameByte letter }
    requires room { All (λ s. first + s < 2 ^ 32) table.now.pins }
    ensures { IfOk result (λ t. t ≡ copy_at number letter (placed inputs.now first) table.now) }
{
    let name = Name::numbered(alloc, letter, u64::from(number))?;
    let pins = placed_signals(alloc, inputs, first, table.pins().as_slice())?;
    let rows = table.rows().copy()?;
    Ok(Table::new(name, pins, rows, table.plane()))
}

/// Adds copies of the net's tables at the end, named by the letter and their numbers.
pub fn push_copies(
    alloc: Global,
    tables: &mut TableList,
    letter: u8,
    inputs: &[Signal],
    first: Signal,
    net: &Net,
) -> Result<(), AllocError>
    requires letter { IsNameByte letter }
    requires room { first < 2 ^ 31 }
    ensures { OnOk result (tables.new
        ≡ tables.old ++ copied letter (placed inputs.now first) net.now.tables) }
{
    for t in 0..net.tables() {
        let copy = copied_table(alloc, letter, t, inputs, first, net.table(t))?;
        tables.push(copy)?;
    }
    Ok(())
}
