//! The tests of the models of a text, one after another. Source: BLIF's `.model` and `.subckt`; their order
//! is this tool's own.
ghost use Rattle.std.specs.Prelude.{◌≡◌, [], IfOk};
ghost use Rattle.std.specs.Option.{option_map};
ghost use Rattle.std.specs.List.{find};
ghost use Rattle.text_words.specs.Slices.{texts};
ghost use Rattle.hierarchy_semantics.specs.Models.{main_of, all_uses};
ghost use Rattle.hierarchy_semantics.specs.Refusals.{taken, first_found, is_taken, hier_refusal, model_names};
ghost use Rattle.hier_faults.specs.Faults.{fault_value, uses_value};
ghost use Rattle.hier_faults.specs.Named.{AreNamed};
ghost use Rattle.hier_parts.specs.Sets.{with_names};
ghost use Rattle.hier_faults.specs.Tests.{names_refusal, ports_refusal, part_fault, whole_refusal};
ghost use Rattle.hier_faults.specs.Tests.{form_refusal};
ghost use Rattle.hier_parts.specs.Driven.{driven_names};

use crate::faults::{
    Fault, all_uses, doubled_ports, same_model, unbound_inputs, unknown, used_names, wrong_formals,
};
use crate::users::recursive;
use crate::whole::{model_fault, taken};
use hier_parts::driven::names_driven;
use hier_parts::interfaces::Interfaces;
use hier_parts::models::{BlifModel, Subcircuit, model_names};
use hier_parts::names::{Names, set_of};
use std::alloc::{AllocError, Global};

/// A name of two models, a use of a model that is not there, or a model that uses itself.
fn names_fault<'a>(
    alloc: Global,
    names: &[&'a [u8]],
    known: &Names,
    uses: &[&Subcircuit<'a>],
    models: &[BlifModel<'a>],
) -> Result<Option<Fault<'a>>, AllocError>
    requires names { texts names.now ≡ model_names models.now }
    requires known { known.now ≡ with_names [] (model_names models.now) }
    requires uses { uses_value uses.now ≡ all_uses models.now }
    requires named { AreNamed models.now }
    ensures { IfOk result (λ o. option_map fault_value o
        ≡ names_refusal (texts names.now) known.now (uses_value uses.now) models.now) }
{
    let fault = same_model(alloc, names)?;
    if fault.is_some() {
        return Ok(fault);
    }
    let fault = unknown(known, uses);
    if fault.is_some() {
        return Ok(fault);
    }
    recursive(alloc, known, models)
}

/// A port that stands twice, a binding of no port or a second one, or an input that is not bound.
fn ports_fault<'a>(
    alloc: Global,
    found: &Interfaces<'_, 'a>,
    uses: &[&Subcircuit<'a>],
    models: &[BlifModel<'a>],
) -> Result<Option<Fault<'a>>, AllocError>
    requires { found.now ≡ models.now }
    ensures { IfOk result (λ o. option_map fault_value o ≡ ports_refusal (uses_value uses.now) models.now) }
{
    let names = used_names(alloc, uses)?;
    let used = set_of(alloc, &names)?;
    let fault = doubled_ports(alloc, &used, models)?;
    if fault.is_some() {
        return Ok(fault);
    }
    let fault = wrong_formals(alloc, found, uses)?;
    if fault.is_some() {
        return Ok(fault);
    }
    unbound_inputs(alloc, found, uses)
}

/// The first model that is not whole.
fn part_faults<'a>(
    alloc: Global,
    found: &Interfaces,
    models: &[BlifModel<'a>],
) -> Result<Option<Fault<'a>>, AllocError>
    ensures { IfOk result (λ o. option_map fault_value o ≡ first_found (part_fault found.now) models.now) }
{
    for model in models {
        let fault = model_fault(alloc, found, model)?;
        if fault.is_some() {
            return Ok(fault);
        }
    }
    Ok(None)
}

/// The first name that the main model drives and that is `$u` and digits.
fn taken_name<'a>(
    alloc: Global,
    found: &Interfaces,
    models: &[BlifModel<'a>],
) -> Result<Option<Fault<'a>>, AllocError>
    ensures { IfOk result (λ o. option_map fault_value o
        ≡ option_map taken (find is_taken (driven_names found.now (main_of models.now)))) }
{
    let Some(main) = models.first() else {
        return Ok(None);
    };
    let names = names_driven(alloc, found, main)?;
    Ok(taken(&names))
}

/// A model that is not whole, or a name that is taken.
fn whole_fault<'a>(
    alloc: Global,
    found: &Interfaces,
    models: &[BlifModel<'a>],
) -> Result<Option<Fault<'a>>, AllocError>
    requires { found.now ≡ models.now }
    ensures { IfOk result (λ o. option_map fault_value o ≡ whole_refusal models.now) }
{
    let fault = part_faults(alloc, found, models)?;
    if fault.is_some() {
        return Ok(fault);
    }
    taken_name(alloc, found, models)
}

/// The first fault of the ports of models, or of their parts.
fn form_fault<'a>(
    alloc: Global,
    found: &Interfaces<'_, 'a>,
    uses: &[&Subcircuit<'a>],
    models: &[BlifModel<'a>],
) -> Result<Option<Fault<'a>>, AllocError>
    requires { found.now ≡ models.now }
    ensures { IfOk result (λ o. option_map fault_value o ≡ form_refusal (uses_value uses.now) models.now) }
{
    let fault = ports_fault(alloc, found, uses, models)?;
    if fault.is_some() {
        return Ok(fault);
    }
    whole_fault(alloc, found, models)
}

/// The first fault of models whose names differ, and which are found by these names.
fn known_fault<'a>(
    alloc: Global,
    known: Names<'a>,
    uses: &[&Subcircuit<'a>],
    models: &[BlifModel<'a>],
) -> Result<Option<Fault<'a>>, AllocError>
    requires { known ≡ model_names models.now }
    ensures { IfOk result (λ o. option_map fault_value o ≡ form_refusal (uses_value uses.now) models.now) }
{
    let none = BlifModel::none(alloc);
    let found = Interfaces::new(alloc, known, models, &none)?;
    form_fault(alloc, &found, uses, models)
}

/// The first fault of the models, if they are no hierarchy. Each word in a name's place is a name.
pub fn first_fault<'a>(
    alloc: Global,
    models: &[BlifModel<'a>],
) -> Result<Option<Fault<'a>>, AllocError>
    requires { AreNamed models.now }
    ensures { IfOk result (λ o. option_map fault_value o ≡ hier_refusal models.now) }
{
    let names = model_names(alloc, models)?;
    let uses = all_uses(alloc, models)?;
    let known = set_of(alloc, &names)?;
    let fault = names_fault(alloc, &names, &known, &uses, models)?;
    if fault.is_some() {
        return Ok(fault);
    }
    known_fault(alloc, known, &uses, models)
}
