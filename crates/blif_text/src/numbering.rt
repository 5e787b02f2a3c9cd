//! The net of a net of names: signals in the place of names, and what is refused of the whole. Source: BLIF;
//! what is refused, and in which order, is this tool's own.
ghost use Rattle.std.specs.Prelude.{◌≡◌, ◌<◌, ◌+◌, ◌^◌, ◌==◌, false, ◌++◌, Result, Ok, None, IfOk, OnOk};
ghost use Rattle.std.specs.Prelude.{IfErr, All, length, map, flat_map};
ghost use Rattle.semantics.specs.Net.{NetValue};
ghost use Rattle.semantics.specs.Refusals.{first_doubled};
ghost use Rattle.blif_semantics.specs.Reading.{Refusal, undriven, unless_refused, names_of, grounded, single};
ghost use Rattle.blif_semantics.specs.Named.{IsNamedTable, IsNamedNet, with_signals, IsDriven};
ghost use Rattle.blif_text.specs.Refusals.{Tells};
ghost use Rattle.blif_text.specs.Names.{first_unknown};
ghost use Rattle.text_words.specs.Slices.{texts};

use crate::name_list::name_list;
use crate::named_net::NamedNet;
use crate::named_table::NamedTable;
use crate::names::Names;
use crate::refusal::BlifRefusal;
use net_core::items::{Items, NameList, SignalList, TableList};
use net_core::limits::first_limit;
use net_core::name::Name;
use net_core::net::Net;
use net_core::order::order_of;
use std::alloc::{AllocError, Global};

/// The names that are driven: those of the inputs, and then those of the tables.
fn driven_names<'a>(
    alloc: Global,
    inputs: &[&'a [u8]],
    tables: &[NamedTable<'a>],
) -> Result<Vec<&'a [u8]>, AllocError>
    ensures { IfOk result (λ v. texts v.items ≡ texts inputs.now ++ map (λ t. t.name) tables.now) }
{
    let mut names = Vec::from_slice(alloc, inputs)?;
    for table in tables {
        names.push(table.name())?;
    }
    Ok(names)
}

/// The tables with signals in the place of names, or the refusal of the first pin whose name is no signal's.
fn numbered_tables(
    alloc: Global,
    names: &Names,
    tables: Vec<NamedTable>,
) -> Result<TableList, BlifRefusal>
    requires { All IsNamedTable tables.items }
    ensures ok { IfOk result (λ list. list ≡ map (with_signals names.now) tables.entry.items) }
    ensures known { OnOk result (first_unknown names.now (flat_map (λ t. t.pins) tables.entry.items) ≡ None) }
    ensures err { IfErr result (λ told. (rest : Result NetValue Refusal)
        → Tells told (unless_refused (first_unknown names.now (flat_map (λ t. t.pins) tables.entry.items))
        undriven rest)) }
{
    let mut list = Items::new(alloc);
    for table in tables {
        list.push(table.numbered(names)?)?;
    }
    Ok(list)
}

/// The net of these parts, or the refusal of a cycle or of a limit.
fn ordered_net(
    alloc: Global,
    model: Name,
    inputs: NameList,
    tables: TableList,
    outputs: SignalList,
) -> Result<Net, BlifRefusal>
    requires driven { IsDriven
        (record { model = model; inputs = inputs; tables = tables; outputs = outputs }) }
    requires few { length inputs + length tables < 2 ^ 31 }
    ensures ok { IfOk result (λ n. grounded
        (record { model = model; inputs = inputs; tables = tables; outputs = outputs }) ≡ Ok n) }
    ensures err { IfErr result
        (λ told. Tells told (grounded
        (record { model = model; inputs = inputs; tables = tables; outputs = outputs }))) }
{
    let order = match order_of(alloc, inputs.len() as u32, tables.as_slice())? {
        Ok(order) => order,
        Err(i) => {
            let name = tables.get(i as usize).name().copy()?;
            return Err(BlifRefusal::Cycle { name });
        }
    };
    if let Some(which) = first_limit(&inputs, &tables, &outputs) {
        return Err(BlifRefusal::Limit { which });
    }
    Ok(Net::from_ordered(model, inputs, tables, outputs, order))
}

/// The net of a net of names all of which are driven exactly once.
fn driven_net(alloc: Global, names: &Names, named: NamedNet) -> Result<Net, BlifRefusal>
    requires named { IsNamedNet named }
    requires names { names.now ≡ names_of named }
    requires few { length (names_of named) < 2 ^ 31 }
    requires differ { first_doubled (names_of named) ≡ None }
    requires output { (length named.outputs == 0) ≡ false }
    ensures ok { IfOk result (λ n. single named.entry ≡ Ok n) }
    ensures err { IfErr result (λ told. Tells told (single named.entry)) }
{
    let NamedNet {
        model,
        inputs,
        outputs,
        tables,
    } = named;
    let model = Name::known(alloc, model)?;
    let inputs = name_list(alloc, &inputs)?;
    let tables = numbered_tables(alloc, names, tables)?;
    let outputs = names.numbers(&outputs)?;
    ordered_net(alloc, model, inputs, tables, outputs)
}

/// The net of a net of names, or its refusal.
pub fn net_of(alloc: Global, named: NamedNet) -> Result<Net, BlifRefusal>
    requires named { IsNamedNet named }
    requires few { length (names_of named) < 2 ^ 31 }
    ensures ok { IfOk result (λ n. single named.entry ≡ Ok n) }
    ensures err { IfErr result (λ told. Tells told (single named.entry)) }
{
    let all = driven_names(alloc, &named.inputs, &named.tables)?;
    let names = Names::of(alloc, &all)?;
    if named.outputs.is_empty() {
        return Err(BlifRefusal::NoOutput);
    }
    driven_net(alloc, &names, named)
}
