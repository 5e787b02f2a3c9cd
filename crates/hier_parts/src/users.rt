//! An order of models, in which each stands after those that it uses, as one of tables is.
ghost use Rattle.std.specs.Prelude.{◌≡◌, ◌<◌, ◌^◌, length, IfOk, MatchResult, map, None, Some, All};
ghost use Rattle.semantics.specs.Net.{IsName};
ghost use Rattle.semantics.specs.Refusals.{first_ungrounded};
ghost use Rattle.blif_semantics.specs.Reading.{signal_named};
ghost use Rattle.hierarchy_semantics.specs.Refusals.{model_names, first_unknown};
ghost use Rattle.hier_parts.specs.Users.{used_models, user_table, users, IsModelOrder};

use crate::models::{BlifModel, Part, Subcircuit};
use crate::names::Names;
use net_core::items::{RowList, Signal, SignalList};
use net_core::name::Name;
use net_core::order::order_of;
use net_core::table::Table;
use std::alloc::{AllocError, Global};

/// The place of the model that is used, or 0 where there is none.
fn used_model(names: &Names, c: &Subcircuit) -> Signal
    requires { length names.now < 2 ^ 31 }
    ensures { result ≡ signal_named names.now c.now.model }
{
    match names.place(c.model) {
        Some(place) => place as Signal,
        None => 0,
    }
}

/// The places of the models that a model uses.
fn used_models(alloc: Global, names: &Names, m: &BlifModel) -> Result<SignalList, AllocError>
    requires { length names.now < 2 ^ 31 }
    ensures { IfOk result (λ used. used ≡ used_models names.now m.now) }
{
    let mut used = SignalList::new(alloc);
    for part in &m.parts {
        if let Part::Use(c) = part {
            used.push(used_model(names, c))?;
        }
    }
    Ok(used)
}

/// A model as a table that reads the models that it uses.
fn user_table(alloc: Global, names: &Names, m: &BlifModel) -> Result<Table, AllocError>
    requires few { length names.now < 2 ^ 31 }
    requires named { IsName m.now.name }
    ensures { IfOk result (λ t. t ≡ user_table names.now m.now) }
{
    let name = Name::known(alloc, m.name)?;
    let used = used_models(alloc, names, m)?;
    Ok(Table::new(name, used, RowList::new(alloc), true))
}

/// The models as tables.
fn user_tables(alloc: Global, names: &Names, models: &[BlifModel]) -> Result<Vec<Table>, AllocError>
    requires few { length names.now < 2 ^ 31 }
    requires named { All (λ m. IsName m.name) models.now }
    ensures { IfOk result (λ v. v.items ≡ map (user_table names.now) models.now) }
{
    let mut tables = Vec::new(alloc);
    for m in models {
        tables.push(user_table(alloc, names, m)?)?;
    }
    Ok(tables)
}

/// An order of the models, each after those that it uses, or the place of the first that has none in any: it
/// uses itself or one that does. Each model that is used is there.
pub fn order_models(
    alloc: Global,
    names: &Names,
    models: &[BlifModel],
) -> Result<Result<Vec<u32>, u32>, AllocError>
    requires names { names.now ≡ model_names models.now }
    requires named { All (λ m. IsName m.name) models.now }
    requires known { first_unknown models.now ≡ None }
    ensures { IfOk result (λ found. MatchResult found
        (λ order. IsModelOrder models.now order.items)
        (λ i. first_ungrounded 0 (users models.now) ≡ Some i)) }
{
    // Each model of a text stands in a line of its own: there is no memory for so many.
    if models.len() >= 1 << 31 {
        return Err(AllocError);
    }
    let tables = user_tables(alloc, names, models)?;
    order_of(alloc, 0, &tables)
}
