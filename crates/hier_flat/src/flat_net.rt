//! The flat net of models that are a hierarchy. Source: BLIF's `.subckt`.
ghost use Rattle.std.specs.Prelude.{◌≡◌, ◌+◌, ◌<◌, ◌^◌, ◌++◌, [], true, Ok, None, Some, IfOk, IfErr};
ghost use Rattle.std.specs.Prelude.{map, length};
ghost use Rattle.std.specs.List.{range_with_len};
ghost use Rattle.semantics.specs.Net.{IsSound, IsSmall, name_of};
ghost use Rattle.semantics.specs.Refusals.{first_limit};
ghost use Rattle.blif_semantics.specs.Reading.{cycle};
ghost use Rattle.hierarchy_semantics.specs.Models.{main_of};
ghost use Rattle.hierarchy_semantics.specs.Refusals.{flat, model_names};
ghost use Rattle.hierarchy_semantics.specs.Flat.{flat_net, flat_checked, flattened};
ghost use Rattle.hier_parts.specs.Sets.{with_names};
ghost use Rattle.hier_parts.specs.Users.{IsModelOrder};
ghost use Rattle.hier_flat.specs.Hierarchies.{IsReading};
ghost use Rattle.hier_flat.specs.Refusals.{Tells, TellsOne};
ghost use Rattle.hier_flat.specs.Flattening.{part_signals, with_model, main_signal};

use crate::counting::counted_limit;
use crate::frames::{Sizes, frame_of, signals_at};
use crate::orders::model_order;
use crate::plans::Plans;
use crate::visits::{Visit, add_visit};
use blif_text::name_list::name_list;
use blif_text::refusal::BlifRefusal;
use hier_parts::interfaces::Interfaces;
use hier_parts::models::{BlifModel, model_names};
use hier_parts::names::{Names, set_of};
use net_core::items::{Items, NameList, Signal, SignalList, TableList};
use net_core::name::Name;
use net_core::net::Net;
use net_core::refusal::NetRefusal;
use std::alloc::{AllocError, Global};

/// The names of inputs and of tables.
fn signal_names(
    alloc: Global,
    inputs: &NameList,
    tables: &TableList,
) -> Result<NameList, AllocError>
    ensures { IfOk result (λ names. names ≡ inputs.now ++ map (λ t. t.name) tables.now) }
{
    let mut names = Items::from_slice(alloc, inputs.as_slice())?;
    for table in tables.as_slice() {
        names.push(table.name().copy()?)?;
    }
    Ok(names)
}

/// The refusal of a cycle on which this signal depends.
fn cycle_at(names: &NameList, signal: Signal) -> BlifRefusal
    ensures { TellsOne result (Some (flat (cycle (name_of names.now signal)))) }
{
    let Some(name) = names.as_slice().get(signal as usize) else {
        return BlifRefusal::OutOfMemory;
    };
    match name.copy() {
        Ok(name) => BlifRefusal::Cycle { name },
        Err(_) => BlifRefusal::OutOfMemory,
    }
}

/// The net of these parts, which pass no limit, or the refusal of a cycle, the only one that they can have.
fn acyclic_net(
    alloc: Global,
    model: Name,
    inputs: NameList,
    tables: TableList,
    outputs: SignalList,
) -> Result<Net, BlifRefusal>
    requires few { length inputs + length tables < 2 ^ 31 }
    requires limit { first_limit
        (record { model = model; inputs = inputs; tables = tables; outputs = outputs }) ≡ None }
    ensures ok { IfOk result (λ n. flat_checked
        (record { model = model; inputs = inputs; tables = tables; outputs = outputs }) ≡ Ok n) }
    ensures sound { IfOk result (λ n. IsSound n) }
    ensures small { IfOk result (λ n. IsSmall n) }
    ensures err { IfErr result
        (λ told. Tells told (flat_checked
        (record { model = model; inputs = inputs; tables = tables; outputs = outputs }))) }
{
    let names = signal_names(alloc, &inputs, &tables)?;
    match Net::from_parts(alloc, model, inputs, tables, outputs) {
        Ok(net) => {
            net.see_sound();
            Ok(net)
        }
        Err(NetRefusal::Cycle(signal)) => Err(cycle_at(&names, signal)),
        Err(_) => Err(BlifRefusal::OutOfMemory),
    }
}

/// The signals from 0 up to before `count`.
fn first_signals(alloc: Global, count: usize) -> Result<SignalList, AllocError>
    requires { count < 2 ^ 31 }
    ensures { IfOk result (λ v. v ≡ range_with_len 0 count) }
{
    let mut signals = Items::new(alloc);
    for signal in 0..count as u32 {
        signals.push(signal)?;
    }
    Ok(signals)
}

/// The signals of the names that the main model drives.
fn main_signals(alloc: Global, plans: &Plans) -> Result<SignalList, AllocError>
    requires few { length (main_of plans.now).inputs < 2 ^ 31 }
    ensures { IfOk result (λ v. v
        ≡ range_with_len 0 (length (main_of plans.now).inputs)
        ++ part_signals plans.now (length (main_of plans.now).inputs) (main_of plans.now).parts) }
{
    let plan = plans.main();
    let Some(offsets) = &plan.offsets else {
        return Err(AllocError);
    };
    let model = plan.model;
    let count = model.inputs.len();
    let inputs = first_signals(alloc, count)?;
    let signals = frame_of(inputs, offsets, count as u32)?;
    Ok(signals)
}

/// The flat tables of the main model, over `levels` levels of models, and the signals of its outputs.
fn main_parts(
    alloc: Global,
    plans: &Plans,
    levels: usize,
) -> Result<(TableList, SignalList), AllocError>
    requires few { length (main_of plans.now).inputs < 2 ^ 31 }
    ensures tables { IfOk result
        (λ p. p.0 ≡ with_model plans.now (length (main_of plans.now).inputs) levels true
        (main_signal plans.now) (main_of plans.now) []) }
    ensures outputs { IfOk result (λ p. p.1 ≡ map (main_signal plans.now) (main_of plans.now).outputs) }
{
    if levels == 0 {
        return Err(AllocError);
    }
    let plan = plans.main();
    let model = plan.model;
    let signals = main_signals(alloc, plans)?;
    let outputs = signals_at(alloc, &signals, &plan.outputs)?;
    let mut tables = Items::new(alloc);
    let visit = Visit {
        plan,
        signals,
        next: 0,
        levels: levels - 1,
        own: true,
        outputs: &[],
        buffers_own: true,
    };
    add_visit(alloc, &mut tables, plans, model.inputs.len(), visit)?;
    Ok((tables, outputs))
}

/// The flat net of models that pass no limit, or the refusal of a cycle.
fn made_net(
    alloc: Global,
    sizes: &Sizes,
    models: &[BlifModel],
    main: &BlifModel,
) -> Result<Net, BlifRefusal>
    requires reading { IsReading models.now }
    requires sizes { sizes.now ≡ models.now }
    requires main { main.now ≡ main_of models.now }
    requires limit { first_limit (flat_net models.now) ≡ None }
    ensures ok { IfOk result (λ n. flattened models.now ≡ Ok n) }
    ensures sound { IfOk result (λ n. IsSound n) }
    ensures small { IfOk result (λ n. IsSmall n) }
    ensures err { IfErr result (λ told. Tells told (flattened models.now)) }
{
    let model = Name::known(alloc, main.name)?;
    let inputs = name_list(alloc, &main.inputs)?;
    let none = BlifModel::none(alloc);
    let plans = Plans::new(alloc, sizes, models, &none)?;
    let (tables, outputs) = main_parts(alloc, &plans, models.len())?;
    acyclic_net(alloc, model, inputs, tables, outputs)
}

/// The flat net of models that are found by their names, or the refusal of a limit, which is decided by
/// counting, or else of a cycle.
fn counted_net(
    alloc: Global,
    found: &Interfaces,
    models: &[BlifModel],
    order: &[u32],
    main: &BlifModel,
) -> Result<Net, BlifRefusal>
    requires reading { IsReading models.now }
    requires found { found.now ≡ models.now }
    requires order { IsModelOrder models.now order.now }
    requires main { main.now ≡ main_of models.now }
    ensures ok { IfOk result (λ n. flattened models.now ≡ Ok n) }
    ensures sound { IfOk result (λ n. IsSound n) }
    ensures small { IfOk result (λ n. IsSmall n) }
    ensures err { IfErr result (λ told. Tells told (flattened models.now)) }
{
    let limit = counted_limit(alloc, found, models, order, main)?;
    match limit {
        Some(which) => Err(BlifRefusal::Limit { which }),
        None => {
            let sizes = Sizes::new(alloc, found, models, order)?;
            made_net(alloc, &sizes, models, main)
        }
    }
}

/// The set of the names of models.
fn name_set<'a>(alloc: Global, models: &[BlifModel<'a>]) -> Result<Names<'a>, AllocError>
    ensures { IfOk result (λ known. known ≡ with_names [] (model_names models.now)) }
{
    let names = model_names(alloc, models)?;
    set_of(alloc, &names)
}

/// The flat net of models that are a hierarchy, or the refusal of a limit or else of a cycle.
pub fn flatten_models(alloc: Global, models: &[BlifModel]) -> Result<Net, BlifRefusal>
    requires { IsReading models.now }
    ensures ok { IfOk result (λ n. flattened models.now ≡ Ok n) }
    ensures sound { IfOk result (λ n. IsSound n) }
    ensures small { IfOk result (λ n. IsSmall n) }
    ensures err { IfErr result (λ told. Tells told (flattened models.now)) }
{
    let Some(main) = models.first() else {
        return Err(BlifRefusal::OutOfMemory);
    };
    let known = name_set(alloc, models)?;
    let order = model_order(alloc, &known, models)?;
    let none = BlifModel::none(alloc);
    let found = Interfaces::new(alloc, known, models, &none)?;
    counted_net(alloc, &found, models, &order, main)
}
