//! How much the flat tables of models are, counted over their statements: no flat table is made.
ghost use Rattle.std.specs.Prelude.{◌≡◌, ℕ, ◌*◌, IfOk, length, filter, sum_by};
ghost use Rattle.semantics.specs.Refusals.{has_name};
ghost use Rattle.hierarchy_semantics.specs.Models.{BlifModel, part_uses, uses_of};
ghost use Rattle.hierarchy_semantics.specs.Counts.{part_weight};
ghost use Rattle.hier_parts.specs.Sections.{part_value};
ghost use Rattle.hier_parts.specs.Users.{IsModelOrder};
ghost use Rattle.hier_flat.specs.Weights.{weight_of, capped, weight_named, AreWeights, level_weights};

use blif_text::named_table::NamedTable;
use hier_parts::interfaces::{Interface, Interfaces};
use hier_parts::models::{BlifModel, Part, Subcircuit};
use semantics::limits::MOST_TABLE_PINS;
use std::alloc::{AllocError, Global};

/// What is counted of flat tables.
#[derive(Clone, Copy, Drop)]
pub enum Measure {
    Tables,
    /// Those of more pins than one table may have.
    WideTables,
    Pins,
    Rows,
}

fn pin_count(table: &NamedTable) -> usize
    ensures { result ≡ length table.now.pins }
{
    table.pins().len()
}

/// What a table counts.
fn table_weight(measure: Measure, table: &NamedTable) -> u64
    ensures { result ≡ (weight_of measure).of_table table.now }
{
    match measure {
        Measure::Tables => 1,
        Measure::WideTables => {
            if pin_count(table) <= MOST_TABLE_PINS {
                0
            } else {
                1
            }
        }
        Measure::Pins => pin_count(table) as u64,
        Measure::Rows => table.rows().len() as u64,
    }
}

/// What `count` buffers count.
fn buffers_weight(measure: Measure, count: u64) -> u64
    ensures { result ≡ count * (weight_of measure).of_buffer }
{
    match measure {
        Measure::WideTables => 0,
        _ => count,
    }
}

/// How many names are bound to outputs of the model.
pub fn output_count(model: &Interface, c: &Subcircuit) -> usize
    ensures { result ≡ length (filter (λ b. has_name model.now.outputs b.formal) c.now.bindings) }
{
    c.bindings
        .iter()
        .filter(|b| model.has_output(b.formal))
        .count()
}

/// The weight of the model of a name.
pub fn weight_at(models: &Interfaces, weights: &[u64], name: &[u8]) -> u64
    ensures { result ≡ weight_named models.now weights.now name.now }
{
    match models.place(name) {
        Some(i) => match weights.get(i) {
            Some(weight) => *weight,
            None => 0,
        },
        None => 0,
    }
}

/// What a part counts, where the models inside count as much.
pub fn part_weight(models: &Interfaces, measure: Measure, inside: &[u64], part: &Part) -> u64
    ensures { (weight : BlifModel → ℕ)
        → AreWeights models.now inside.now weight (part_uses (part_value part.now))
        → result ≡ capped (part_weight models.now (weight_of measure) weight (part_value part.now)) }
{
    match part {
        Part::Names(table) => table_weight(measure, table),
        Part::Use(c) => {
            let buffers = buffers_weight(measure, output_count(models.of(c.model), c) as u64);
            weight_at(models, inside, c.model).saturating_add(buffers)
        }
    }
}

/// What a model counts, where the models inside count as much.
pub fn model_weight(models: &Interfaces, measure: Measure, inside: &[u64], m: &BlifModel) -> u64
    ensures { (weight : BlifModel → ℕ) → AreWeights models.now inside.now weight (uses_of m.now)
        → result ≡ capped (sum_by (part_weight models.now (weight_of measure) weight) m.now.parts) }
{
    let mut total = 0u64;
    for part in &m.parts {
        total = total.saturating_add(part_weight(models, measure, inside, part));
    }
    total
}

/// What each model counts, in one pass over the models, in an order where each stands after those that it
/// uses.
pub fn weights(
    alloc: Global,
    found: &Interfaces,
    measure: Measure,
    models: &[BlifModel],
    order: &[u32],
) -> Result<Vec<u64>, AllocError>
    requires found { found.now ≡ models.now }
    requires order { IsModelOrder models.now order.now }
    ensures { IfOk result (λ v. v.items ≡ level_weights models.now (weight_of measure) (length models.now)) }
{
    let mut weights = vec![in alloc; 0; models.len()]?;
    for place in order {
        let at = *place as usize;
        let weight = model_weight(found, measure, &weights, &models[at]);
        weights[at] = weight;
    }
    Ok(weights)
}
