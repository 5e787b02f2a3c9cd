//! The first fault of the models of a text, with names as slices of it. Source: BLIF's `.model` and
//! `.subckt`; the order of the tests is this tool's own.
ghost use Rattle.std.specs.Prelude.{◌≡◌, ◌++◌, [], IfOk, map, not};
ghost use Rattle.std.specs.Option.{option_map};
ghost use Rattle.std.specs.List.{find};
ghost use Rattle.semantics.specs.Refusals.{has_name, first_doubled};
ghost use Rattle.text_words.specs.Slices.{texts};
ghost use Rattle.hierarchy_semantics.specs.Models.{uses_of, all_uses};
ghost use Rattle.hierarchy_semantics.specs.Refusals.{same_model, no_model_named, ports, formal, unbound};
ghost use Rattle.hierarchy_semantics.specs.Refusals.{first_found, wrong_formal, formals_of, formal_refusal};
ghost use Rattle.hierarchy_semantics.specs.Refusals.{unbound_refusal};
ghost use Rattle.hier_faults.specs.Faults.{fault_value, uses_value, doubled_port_in};

use hier_parts::interfaces::{Interface, Interfaces};
use hier_parts::models::{BlifModel, Part, Subcircuit};
use hier_parts::names::{Names, first_doubled, set_of};
use std::alloc::{AllocError, Global};

/// Why the models of a text are no hierarchy.
#[derive(Clone, Copy, Drop)]
pub enum Fault<'a> {
    SameModel(&'a [u8]),
    NoModel(&'a [u8]),
    Recursive(&'a [u8]),
    Ports { model: &'a [u8], name: &'a [u8] },
    Formal { line: u64, name: &'a [u8] },
    Unbound { line: u64, name: &'a [u8] },
    Doubled { model: &'a [u8], name: &'a [u8] },
    NoOutput { model: &'a [u8] },
    Undriven { model: &'a [u8], name: &'a [u8] },
    Taken(&'a [u8]),
}

/// These uses of models, and then those in a model.
fn with_uses<'m, 'a>(
    mut uses: Vec<&'m Subcircuit<'a>>,
    model: &'m BlifModel<'a>,
) -> Result<Vec<&'m Subcircuit<'a>>, AllocError>
    ensures { IfOk result (λ v. uses_value v.items ≡ uses_value uses.entry.items ++ uses_of model.now) }
{
    for part in &model.parts {
        if let Part::Use(c) = part {
            uses.push(c)?;
        }
    }
    Ok(uses)
}

/// The uses of models in a text.
pub fn all_uses<'m, 'a>(
    alloc: Global,
    models: &'m [BlifModel<'a>],
) -> Result<Vec<&'m Subcircuit<'a>>, AllocError>
    ensures { IfOk result (λ v. uses_value v.items ≡ all_uses models.now) }
{
    let mut uses = Vec::new(alloc);
    for model in models {
        uses = with_uses(uses, model)?;
    }
    Ok(uses)
}

/// The names of the models that are used.
pub fn used_names<'a>(alloc: Global, uses: &[&Subcircuit<'a>]) -> Result<Vec<&'a [u8]>, AllocError>
    ensures { IfOk result (λ v. texts v.items ≡ map (λ c. c.model) (uses_value uses.now)) }
{
    let mut names = Vec::new(alloc);
    for c in uses {
        names.push(c.model)?;
    }
    Ok(names)
}

/// The first model whose name is that of an earlier model.
pub fn same_model<'a>(alloc: Global, names: &[&'a [u8]]) -> Result<Option<Fault<'a>>, AllocError>
    ensures { IfOk result (λ o. option_map fault_value o
        ≡ option_map same_model (first_doubled (texts names.now))) }
{
    match first_doubled(alloc, names)? {
        Some(name) => Ok(Some(Fault::SameModel(name))),
        None => Ok(None),
    }
}

/// The first use of a model whose name is none of these.
pub fn unknown<'a>(names: &Names, uses: &[&Subcircuit<'a>]) -> Option<Fault<'a>>
    ensures { option_map fault_value result
        ≡ option_map (λ c. no_model_named c.model)
        (find (λ c. not (has_name names.now c.model)) (uses_value uses.now)) }
{
    for c in uses {
        if !names.contains(c.model) {
            return Some(Fault::NoModel(c.model));
        }
    }
    None
}

/// The first port of a model that stands twice among its ports.
fn doubled_port<'a>(alloc: Global, model: &BlifModel<'a>) -> Result<Option<Fault<'a>>, AllocError>
    ensures { IfOk result (λ o. option_map fault_value o
        ≡ option_map (ports model.now.name) (first_doubled model.now.ports)) }
{
    match first_doubled(alloc, &model.ports)? {
        Some(name) => Ok(Some(Fault::Ports {
            model: model.name,
            name,
        })),
        None => Ok(None),
    }
}

/// The first port that stands twice in a model whose name is one of those that are used.
pub fn doubled_ports<'a>(
    alloc: Global,
    used: &Names,
    models: &[BlifModel<'a>],
) -> Result<Option<Fault<'a>>, AllocError>
    ensures { IfOk result (λ o. option_map fault_value o
        ≡ first_found (doubled_port_in used.now) models.now) }
{
    for model in models {
        if used.contains(model.name) {
            let fault = doubled_port(alloc, model)?;
            if fault.is_some() {
                return Ok(fault);
            }
        }
    }
    Ok(None)
}

/// The first port in a use of a model that is bound and is no port of the model, or is bound a second time.
fn wrong_formal<'a>(
    alloc: Global,
    model: &Interface,
    c: &Subcircuit<'a>,
) -> Result<Option<Fault<'a>>, AllocError>
    ensures { IfOk result (λ o. option_map fault_value o
        ≡ option_map (formal c.now.line) (wrong_formal model.now.ports [] (formals_of c.now))) }
{
    let mut earlier = Names::new(alloc);
    for b in &c.bindings {
        if !model.has_port(b.formal) || !earlier.add(b.formal)? {
            return Ok(Some(Fault::Formal {
                line: c.line,
                name: b.formal,
            }));
        }
    }
    Ok(None)
}

/// The ports that are bound.
fn formals_of<'a>(alloc: Global, c: &Subcircuit<'a>) -> Result<Vec<&'a [u8]>, AllocError>
    ensures { IfOk result (λ v. texts v.items ≡ formals_of c.now) }
{
    let mut names = Vec::new(alloc);
    for b in &c.bindings {
        names.push(b.formal)?;
    }
    Ok(names)
}

/// The first of the inputs that is not among the names.
pub fn first_missing<'a>(names: &Names, inputs: &[&'a [u8]]) -> Option<&'a [u8]>
    ensures { option_map (λ w. w.now) result
        ≡ find (λ name. not (has_name names.now name)) (texts inputs.now) }
{
    for name in inputs {
        if !names.contains(name) {
            return Some(*name);
        }
    }
    None
}

/// The first input of the model that is not bound.
fn unbound<'a>(
    alloc: Global,
    model: &BlifModel<'a>,
    c: &Subcircuit<'a>,
) -> Result<Option<Fault<'a>>, AllocError>
    ensures { IfOk result (λ o. option_map fault_value o
        ≡ option_map (unbound c.now.line)
        (find (λ name. not (has_name (formals_of c.now) name)) model.now.inputs)) }
{
    let formals = formals_of(alloc, c)?;
    let bound = set_of(alloc, &formals)?;
    match first_missing(&bound, &model.inputs) {
        Some(name) => Ok(Some(Fault::Unbound { line: c.line, name })),
        None => Ok(None),
    }
}

/// The first port, in these uses of models, that is bound and is no port of its model, or is bound a second
/// time.
pub fn wrong_formals<'a>(
    alloc: Global,
    models: &Interfaces,
    uses: &[&Subcircuit<'a>],
) -> Result<Option<Fault<'a>>, AllocError>
    ensures { IfOk result (λ o. option_map fault_value o
        ≡ first_found (formal_refusal models.now) (uses_value uses.now)) }
{
    for c in uses {
        let fault = wrong_formal(alloc, models.of(c.model), c)?;
        if fault.is_some() {
            return Ok(fault);
        }
    }
    Ok(None)
}

/// The first input that the use of a model does not bind.
fn unbound_input<'a>(
    alloc: Global,
    models: &Interfaces<'_, 'a>,
    c: &Subcircuit<'a>,
) -> Result<Option<Fault<'a>>, AllocError>
    ensures { IfOk result (λ o. option_map fault_value o ≡ unbound_refusal models.now c.now) }
{
    unbound(alloc, models.of(c.model).model(), c)
}

/// The first input that one of these uses of a model does not bind.
pub fn unbound_inputs<'a>(
    alloc: Global,
    models: &Interfaces<'_, 'a>,
    uses: &[&Subcircuit<'a>],
) -> Result<Option<Fault<'a>>, AllocError>
    ensures { IfOk result (λ o. option_map fault_value o
        ≡ first_found (unbound_refusal models.now) (uses_value uses.now)) }
{
    for c in uses {
        let fault = unbound_input(alloc, models, c)?;
        if fault.is_some() {
            return Ok(fault);
        }
    }
    Ok(None)
}
