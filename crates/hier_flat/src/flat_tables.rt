//! The tables of a flat net, one by one. Source: BLIF's `.names` and `.subckt`; the names of the tables
//! inside are this tool's own.
ghost use Rattle.std.specs.Prelude.{◌≡◌, [], ◌∷◌, ◌++◌, codes, decimal, length, IfOk, OnOk};
ghost use Rattle.std.specs.List.{AllByRecursion};
ghost use Rattle.semantics.specs.Net.{IsName};
ghost use Rattle.blif_semantics.specs.Named.{IsNamedTable};
ghost use Rattle.hier_flat.specs.Flattening.{label, buffer_made};
ghost use Rattle.hier_flat.specs.Plans.{slot_table, with_slot_buffers};

use crate::frames::{signal_at, signals_at};
use crate::plans::{OutputPlan, TablePlan};
use net_core::items::{Items, Signal, SignalList, TableList};
use net_core::mark::Mark;
use net_core::name::Name;
use net_core::row::rows_of;
use net_core::table::Table;
use std::alloc::{AllocError, Global};

/// The name of a table inside: `$u` and its number.
fn numbered(alloc: Global, number: u64) -> Result<Name, AllocError>
    ensures { IfOk result (λ n. n ≡ codes "$u" ++ decimal number) }
{
    let digits = Name::numbered(alloc, b'u', number)?;
    let mut bytes = Vec::from_slice(alloc, b"$")?;
    bytes.extend_from_slice(digits.bytes())?;
    Name::known(alloc, &bytes)
}

/// The name of a flat table: its own in the main model, else its number.
fn label(alloc: Global, own: bool, name: &[u8], number: usize) -> Result<Name, AllocError>
    requires { IsName name.now }
    ensures { IfOk result (λ n. n ≡ label own name.now number) }
{
    if own {
        Name::known(alloc, name)
    } else {
        numbered(alloc, number as u64)
    }
}

/// A table with the signals of its pins, as the flat table of this number.
fn table_made(
    alloc: Global,
    own: bool,
    signals: &SignalList,
    t: &TablePlan,
    number: usize,
) -> Result<Table, AllocError>
    requires named { IsNamedTable t.now.table.now }
    requires pins { length t.now.pins.items ≡ length t.now.table.now.pins }
    ensures { IfOk result (λ made. made ≡ slot_table own signals.now t.now number) }
{
    let name = label(alloc, own, t.table.name(), number)?;
    let pins = signals_at(alloc, signals, &t.pins)?;
    let rows = t.table.rows().copy()?;
    Ok(Table::new(name, pins, rows, t.table.plane()))
}

/// A buffer of a signal, as the flat table of this number.
fn buffer_made(
    alloc: Global,
    own: bool,
    pin: Signal,
    name: &[u8],
    number: usize,
) -> Result<Table, AllocError>
    requires { IsName name.now }
    ensures { IfOk result (λ made. made ≡ buffer_made own pin name.now number) }
{
    let name = label(alloc, own, name, number)?;
    let pins = Items::from_slice(alloc, &[pin])?;
    let rows = rows_of(alloc, &[[Mark::One]])?;
    Ok(Table::new(name, pins, rows, true))
}

/// Adds a buffer for each output that is bound, where the names inside have these signals.
pub fn add_buffers(
    alloc: Global,
    tables: &mut TableList,
    own: bool,
    signals: &SignalList,
    outputs: &[OutputPlan],
) -> Result<(), AllocError>
    requires { AllByRecursion (λ o. IsName o.actual) outputs.now }
    ensures { OnOk result (tables.new ≡ with_slot_buffers own signals.now outputs.now tables.old) }
{
    for output in outputs {
        let pin = signal_at(signals, output.slot);
        let number = tables.len();
        tables.push(buffer_made(alloc, own, pin, output.actual, number)?)?;
    }
    Ok(())
}

/// Adds a table of a model, with the signals of its pins.
pub fn add_table(
    alloc: Global,
    tables: &mut TableList,
    own: bool,
    signals: &SignalList,
    t: &TablePlan,
) -> Result<(), AllocError>
    requires named { IsNamedTable t.now.table.now }
    requires pins { length t.now.pins.items ≡ length t.now.table.now.pins }
    ensures { OnOk result (tables.new
        ≡ tables.old ++ slot_table own signals.now t.now (length tables.old) ∷ []) }
{
    let number = tables.len();
    tables.push(table_made(alloc, own, signals, t, number)?)
}
