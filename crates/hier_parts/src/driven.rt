//! The names that a model drives. Source: BLIF's `.inputs`, `.names` and `.subckt`.
ghost use Rattle.std.specs.Prelude.{◌≡◌, ◌++◌, IfOk, map, filter};
ghost use Rattle.semantics.specs.Refusals.{has_name};
ghost use Rattle.text_words.specs.Slices.{texts};
ghost use Rattle.hier_parts.specs.Sections.{part_value};
ghost use Rattle.hier_parts.specs.Driven.{part_names, driven_names};

use crate::interfaces::{Interface, Interfaces};
use crate::models::{BlifModel, Part, Subcircuit};
use std::alloc::{AllocError, Global};

/// These names, and those that are bound to outputs of the model.
fn with_outputs<'a>(
    mut names: Vec<&'a [u8]>,
    model: &Interface,
    c: &Subcircuit<'a>,
) -> Result<Vec<&'a [u8]>, AllocError>
    ensures { IfOk result (λ v. texts v.items
        ≡ texts names.entry.items
        ++ map (λ b. b.actual) (filter (λ b. has_name model.now.outputs b.formal) c.now.bindings)) }
{
    for b in &c.bindings {
        if model.has_output(b.formal) {
            names.push(b.actual)?;
        }
    }
    Ok(names)
}

/// These names, and those that a part drives.
fn with_part<'a>(
    mut names: Vec<&'a [u8]>,
    models: &Interfaces,
    part: &Part<'a>,
) -> Result<Vec<&'a [u8]>, AllocError>
    ensures { IfOk result (λ v. texts v.items
        ≡ texts names.entry.items ++ part_names models.now (part_value part.now)) }
{
    match part {
        Part::Names(table) => {
            names.push(table.name())?;
            Ok(names)
        }
        Part::Use(c) => with_outputs(names, models.of(c.model), c),
    }
}

/// The names that a model drives: its inputs, and then what its parts drive.
pub fn names_driven<'a>(
    alloc: Global,
    models: &Interfaces,
    m: &BlifModel<'a>,
) -> Result<Vec<&'a [u8]>, AllocError>
    ensures { IfOk result (λ v. texts v.items ≡ driven_names models.now m.now) }
{
    let mut names = Vec::from_slice(alloc, &m.inputs)?;
    for part in &m.parts {
        names = with_part(names, models, part)?;
    }
    Ok(names)
}
