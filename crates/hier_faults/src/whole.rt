//! What keeps a model from being whole: names that are driven twice, or read and not driven. Source: BLIF's
//! `.inputs`, `.names` and `.subckt`.
ghost use Rattle.std.specs.Prelude.{◌≡◌, IfOk, map, filter, not};
ghost use Rattle.std.specs.Option.{option_map};
ghost use Rattle.std.specs.List.{find, list_all};
ghost use Rattle.semantics.specs.Decimal.{is_digit};
ghost use Rattle.semantics.specs.Refusals.{has_name};
ghost use Rattle.text_words.specs.Slices.{texts};
ghost use Rattle.hierarchy_semantics.specs.Driven.{part_reads};
ghost use Rattle.hierarchy_semantics.specs.Refusals.{part, taken, is_taken};
ghost use Rattle.hier_faults.specs.Faults.{fault_value};
ghost use Rattle.hier_parts.specs.Sections.{part_value};
ghost use Rattle.hier_faults.specs.Whole.{undriven_in, model_fault};

use crate::faults::{Fault, first_missing};
use hier_parts::driven::names_driven;
use hier_parts::interfaces::{Interface, Interfaces};
use hier_parts::models::{BlifModel, Part, Subcircuit};
use hier_parts::names::{Names, first_doubled, set_of};
use std::alloc::{AllocError, Global};

/// The first name that is bound to an input of the model and is not among the driven names.
fn missing_actual<'a>(driven: &Names, model: &Interface, c: &Subcircuit<'a>) -> Option<&'a [u8]>
    ensures { option_map (λ w. w.now) result
        ≡ find (λ name. not (has_name driven.now name))
        (map (λ b. b.actual) (filter (λ b. has_name model.now.inputs b.formal) c.now.bindings)) }
{
    for b in &c.bindings {
        if model.has_input(b.formal) && !driven.contains(b.actual) {
            return Some(b.actual);
        }
    }
    None
}

/// The first name that a part reads and that is not among the driven names.
fn undriven_part<'a>(driven: &Names, models: &Interfaces, part: &Part<'a>) -> Option<&'a [u8]>
    ensures { option_map (λ w. w.now) result
        ≡ find (λ name. not (has_name driven.now name)) (part_reads models.now (part_value part.now)) }
{
    match part {
        Part::Names(table) => first_missing(driven, table.pins()),
        Part::Use(c) => missing_actual(driven, models.of(c.model), c),
    }
}

/// The first name that a model reads and that is not among the driven names.
fn undriven<'a>(driven: &Names, models: &Interfaces, m: &BlifModel<'a>) -> Option<&'a [u8]>
    ensures { option_map (λ w. w.now) result ≡ undriven_in models.now driven.now m.now.parts m.now.outputs }
{
    for part in &m.parts {
        let name = undriven_part(driven, models, part);
        if name.is_some() {
            return name;
        }
    }
    first_missing(driven, &m.outputs)
}

/// What keeps a model from being whole.
pub fn model_fault<'a>(
    alloc: Global,
    models: &Interfaces,
    m: &BlifModel<'a>,
) -> Result<Option<Fault<'a>>, AllocError>
    ensures { IfOk result (λ o. option_map fault_value o
        ≡ option_map (part m.now.name) (model_fault models.now m.now)) }
{
    let names = names_driven(alloc, models, m)?;
    let model = m.name;
    if let Some(name) = first_doubled(alloc, &names)? {
        return Ok(Some(Fault::Doubled { model, name }));
    }
    if m.outputs.is_empty() {
        return Ok(Some(Fault::NoOutput { model }));
    }
    let driven = set_of(alloc, &names)?;
    match undriven(&driven, models, m) {
        Some(name) => Ok(Some(Fault::Undriven { model, name })),
        None => Ok(None),
    }
}

fn are_digits(bytes: &[u8]) -> bool
    ensures { result ≡ list_all is_digit bytes.now }
{
    bytes.iter().all(|b| b.is_ascii_digit())
}

/// Whether the name is `$u` and digits.
fn is_taken(name: &[u8]) -> bool
    ensures { result ≡ is_taken name.now }
{
    match name {
        [b'$', b'u', digits @ ..] => !digits.is_empty() && are_digits(digits),
        _ => false,
    }
}

/// The first of the names that is `$u` and digits.
pub fn taken<'a>(names: &[&'a [u8]]) -> Option<Fault<'a>>
    ensures { option_map fault_value result ≡ option_map taken (find is_taken (texts names.now)) }
{
    for name in names {
        if is_taken(name) {
            return Some(Fault::Taken(*name));
        }
    }
    None
}
