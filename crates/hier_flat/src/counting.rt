//! The limit that a flat net passes, decided by counting before it is made. Source: this tool's own limits.
ghost use Rattle.std.specs.Prelude.{◌≡◌, not, nat_le, length, IfOk};
ghost use Rattle.semantics.specs.Refusals.{first_limit};
ghost use Rattle.hierarchy_semantics.specs.Models.{main_of};
ghost use Rattle.hierarchy_semantics.specs.Counts.{flat_weight};
ghost use Rattle.hierarchy_semantics.specs.Flat.{flat_net};
ghost use Rattle.hier_parts.specs.Users.{IsModelOrder};
ghost use Rattle.hier_flat.specs.Weights.{weight_of, capped, limit_by};

use crate::weights::{Measure, weights};
use hier_parts::interfaces::Interfaces;
use hier_parts::models::BlifModel;
use semantics::limits::{MOST_INPUTS, MOST_OUTPUTS, MOST_PINS, MOST_ROWS, MOST_TABLES};
use semantics::which::Which;
use std::alloc::{AllocError, Global};

/// What the main model counts.
fn main_weight(
    alloc: Global,
    found: &Interfaces,
    models: &[BlifModel],
    order: &[u32],
    measure: Measure,
) -> Result<u64, AllocError>
    requires found { found.now ≡ models.now }
    requires order { IsModelOrder models.now order.now }
    ensures { IfOk result (λ n. n ≡ capped (flat_weight models.now (weight_of measure))) }
{
    let weights = weights(alloc, found, measure, models, order)?;
    match weights.first() {
        Some(weight) => Ok(*weight),
        None => Ok(0),
    }
}

fn input_count(m: &BlifModel) -> usize
    ensures { result ≡ length m.now.inputs }
{
    m.inputs.len()
}

fn output_count(m: &BlifModel) -> usize
    ensures { result ≡ length m.now.outputs }
{
    m.outputs.len()
}

/// Whether a count passes a limit.
fn passes(count: u64, most: usize) -> bool
    ensures { result ≡ not (nat_le count most) }
{
    count > most as u64
}

/// The first limit of those that are passed.
fn limit_by(
    inputs: bool,
    outputs: bool,
    tables: bool,
    wide: bool,
    pins: bool,
    rows: bool,
) -> Option<Which>
    ensures { result ≡ limit_by inputs outputs tables wide pins rows }
{
    if inputs {
        Some(Which::Inputs)
    } else if outputs {
        Some(Which::Outputs)
    } else if tables {
        Some(Which::Tables)
    } else if wide {
        Some(Which::Pins)
    } else if pins {
        Some(Which::AllPins)
    } else if rows {
        Some(Which::Rows)
    } else {
        None
    }
}

/// The first limit that the flat net passes. The order is one of the models, each after those that it uses.
pub fn counted_limit(
    alloc: Global,
    found: &Interfaces,
    models: &[BlifModel],
    order: &[u32],
    main: &BlifModel,
) -> Result<Option<Which>, AllocError>
    requires found { found.now ≡ models.now }
    requires order { IsModelOrder models.now order.now }
    requires main { main.now ≡ main_of models.now }
    ensures { IfOk result (λ o. o ≡ first_limit (flat_net models.now)) }
{
    let tables = main_weight(alloc, found, models, order, Measure::Tables)?;
    let wide = main_weight(alloc, found, models, order, Measure::WideTables)?;
    let pins = main_weight(alloc, found, models, order, Measure::Pins)?;
    let rows = main_weight(alloc, found, models, order, Measure::Rows)?;
    Ok(limit_by(
        passes(input_count(main) as u64, MOST_INPUTS),
        passes(output_count(main) as u64, MOST_OUTPUTS),
        passes(tables, MOST_TABLES),
        passes(wide, 0),
        passes(pins, MOST_PINS),
        passes(rows, MOST_ROWS),
    ))
}
