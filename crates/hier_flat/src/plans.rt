//! Plans of models: each name is looked up once for a model, not at each of the model's uses. Source: BLIF's
//! `.names` and `.subckt`.
ghost use Rattle.std.specs.Prelude.{◌≡◌, ℕ, ◌<◌, [], IfOk, Some, length, map, filter};
ghost use Rattle.std.specs.List.{AllByRecursion};
ghost use Rattle.semantics.specs.Texts.{Bytes};
ghost use Rattle.semantics.specs.Refusals.{has_name};
ghost use Rattle.blif_text.specs.Names.{place_of};
ghost use Rattle.text_words.specs.Slices.{texts};
ghost use Rattle.hierarchy_semantics.specs.Models.{Hierarchy, no_model, main_of, model_named};
ghost use Rattle.hierarchy_semantics.specs.Refusals.{model_names, formals_of};
ghost use Rattle.hierarchy_semantics.specs.Places.{actual_of};
ghost use Rattle.hier_parts.specs.Sections.{part_value};
ghost use Rattle.hier_parts.specs.Driven.{driven_names};
ghost use Rattle.hier_flat.specs.Flattening.{IsFormedPart};
ghost use Rattle.hier_flat.specs.Plans.{part_of, output_plan, IsUsePlan, IsPartPlan, IsPlan, AreFormed};

use crate::frames::{Sizes, Slot, offsets_of};
use blif_text::named_table::NamedTable;
use hier_parts::driven::names_driven;
use hier_parts::interfaces::Interface;
use hier_parts::models::{BlifModel, Part, Subcircuit};
use hier_parts::names::Names;
use net_core::items::SignalList;
use std::alloc::{AllocError, Global};
use std::marker::Model;

/// A table, and the slots of its pins.
#[derive(Drop)]
pub struct TablePlan<'m, 'a> {
    pub table: &'m NamedTable<'a>,
    pub pins: Vec<Slot>,
}

/// The slot of an output inside the model that is used, and the name that is bound to it.
#[derive(Drop)]
pub struct OutputPlan<'a> {
    pub slot: Slot,
    pub actual: &'a [u8],
}

impl<'a> Model for OutputPlan<'a> {
    ghost use Rattle.hier_flat.specs.Outputs.{OutputPlan};

    ghost Value = { OutputPlan };

    ghost view = { λ a. record { slot = a.slot; actual = a.actual.now } };
}

/// The use of a model: the model's place, the slots of what is bound to its inputs, and the outputs that are
/// bound.
#[derive(Drop)]
pub struct UsePlan<'m, 'a> {
    pub subcircuit: &'m Subcircuit<'a>,
    pub place: Option<usize>,
    pub inputs: Vec<Slot>,
    pub outputs: Vec<OutputPlan<'a>>,
}

/// The plan of a part of a model.
#[derive(Drop)]
pub enum PartPlan<'m, 'a> {
    Table(TablePlan<'m, 'a>),
    Use(UsePlan<'m, 'a>),
}

/// The plan of a model: its parts, the slots of its outputs, and the signals of what its parts drive, counted
/// from its first flat table. It has none of these where they are more than signals can be numbered.
#[derive(Drop)]
pub struct Plan<'m, 'a> {
    pub model: &'m BlifModel<'a>,
    pub parts: Vec<PartPlan<'m, 'a>>,
    pub outputs: Vec<Slot>,
    pub offsets: Option<SignalList>,
}

/// The set of names that differ. Where one repeats, as in no hierarchy that is read, there is no memory.
fn distinct<'a>(alloc: Global, names: &[&'a [u8]]) -> Result<Names<'a>, AllocError>
    ensures { IfOk result (λ all. all ≡ texts names.now) }
{
    let mut all = Names::new(alloc);
    for name in names {
        if !all.add(name)? {
            return Err(AllocError);
        }
    }
    Ok(all)
}

/// The formals of a use, in order.
fn formals_of<'a>(alloc: Global, c: &Subcircuit<'a>) -> Result<Vec<&'a [u8]>, AllocError>
    ensures { IfOk result (λ v. texts v.items ≡ formals_of c.now) }
{
    let mut names = Vec::new(alloc);
    for b in &c.bindings {
        names.push(b.formal)?;
    }
    Ok(names)
}

/// The name that is bound to a port, where the formals of the use are these.
fn actual_at<'a>(c: &Subcircuit<'a>, formals: &Names, name: &[u8]) -> &'a [u8]
    requires { formals.now ≡ formals_of c.now }
    ensures { result.now ≡ actual_of c.now name.now }
{
    let Some(i) = formals.place(name) else {
        return &[];
    };
    c.bindings[i].actual
}

/// The slots of the names that are bound to the inputs of the model.
fn input_slots(
    alloc: Global,
    names: &Names,
    model: &BlifModel,
    c: &Subcircuit,
) -> Result<Vec<Slot>, AllocError>
    ensures { IfOk result (λ v. v.items
        ≡ map (λ name. place_of names.now (actual_of c.now name)) model.now.inputs) }
{
    let listed = formals_of(alloc, c)?;
    let formals = distinct(alloc, &listed)?;
    let mut slots = Vec::new(alloc);
    for name in &model.inputs {
        slots.push(names.place(actual_at(c, &formals, name)))?;
    }
    Ok(slots)
}

/// The outputs that are bound, where the model that is used drives the names `inside`.
fn output_plans<'a>(
    alloc: Global,
    inside: &Names,
    model: &Interface,
    c: &Subcircuit<'a>,
) -> Result<Vec<OutputPlan<'a>>, AllocError>
    ensures { IfOk result (λ v. v.items
        ≡ map (output_plan inside.now)
        (filter (λ b. has_name model.now.outputs b.formal) c.now.bindings)) }
{
    let mut outputs = Vec::new(alloc);
    for b in &c.bindings {
        if model.has_output(b.formal) {
            outputs.push(OutputPlan {
                slot: inside.place(b.formal),
                actual: b.actual,
            })?;
        }
    }
    Ok(outputs)
}

/// The slots of words.
fn slots_of(alloc: Global, names: &Names, words: &[&[u8]]) -> Result<Vec<Slot>, AllocError>
    ensures { IfOk result (λ v. v.items ≡ map (place_of names.now) (texts words.now)) }
{
    let mut slots = Vec::new(alloc);
    for word in words {
        slots.push(names.place(word))?;
    }
    Ok(slots)
}

/// The names of the model at a place, or none where there is no place.
fn names_at<'n, 'a>(
    all: &'n [Names<'a>],
    none: &'n Names<'a>,
    place: Option<usize>,
) -> &'n Names<'a>
    requires none { none.now ≡ [] }
    requires place { (i : ℕ) → place ≡ Some i → i < length all.now }
    ensures { (h : Hierarchy) (name : Bytes) → all.now ≡ map (driven_names h) h
        → place ≡ place_of (model_names h) name → result.now ≡ driven_names h (model_named h name) }
{
    match place {
        Some(i) => &all[i],
        None => none,
    }
}

/// The plan of a table, in a model that drives these names.
fn plan_table<'m, 'a>(
    alloc: Global,
    names: &Names,
    table: &'m NamedTable<'a>,
) -> Result<TablePlan<'m, 'a>, AllocError>
    ensures table { IfOk result (λ t. t.table.now ≡ table.now) }
    ensures pins { IfOk result (λ t. t.pins.items ≡ map (place_of names.now) table.now.pins) }
{
    let pins = slots_of(alloc, names, table.pins())?;
    Ok(TablePlan { table, pins })
}

/// The plan of a use, in a model that drives these names, where the models drive the names `all`.
fn plan_use<'m, 'a>(
    alloc: Global,
    sizes: &Sizes,
    all: &[Names],
    names: &Names,
    c: &'m Subcircuit<'a>,
) -> Result<UsePlan<'m, 'a>, AllocError>
    requires { all.now ≡ map (driven_names sizes.now) sizes.now }
    ensures subcircuit { IfOk result (λ u. u.subcircuit.now ≡ c.now) }
    ensures is { IfOk result (λ u. IsUsePlan sizes.now names.now u) }
{
    let place = sizes.models().place(c.model);
    let model = sizes.of(c.model);
    let none = Names::new(alloc);
    let inputs = input_slots(alloc, names, model.model(), c)?;
    let outputs = output_plans(alloc, names_at(all, &none, place), model, c)?;
    Ok(UsePlan {
        subcircuit: c,
        place,
        inputs,
        outputs,
    })
}

/// The plan of a part, in a model that drives these names, where the models drive the names `all`.
fn plan_part<'m, 'a>(
    alloc: Global,
    sizes: &Sizes,
    all: &[Names],
    names: &Names,
    part: &'m Part<'a>,
) -> Result<PartPlan<'m, 'a>, AllocError>
    requires { all.now ≡ map (driven_names sizes.now) sizes.now }
    ensures part { IfOk result (λ p. part_of p ≡ part_value part.now) }
    ensures is { IfOk result (λ p. IsPartPlan sizes.now names.now p) }
{
    match part {
        Part::Names(table) => Ok(PartPlan::Table(plan_table(alloc, names, table)?)),
        Part::Use(c) => Ok(PartPlan::Use(plan_use(alloc, sizes, all, names, c)?)),
    }
}

/// The plans of the parts of a model that drives these names, where the models drive the names `all`.
fn plan_parts<'m, 'a>(
    alloc: Global,
    sizes: &Sizes,
    all: &[Names],
    names: &Names,
    m: &'m BlifModel<'a>,
) -> Result<Vec<PartPlan<'m, 'a>>, AllocError>
    requires { all.now ≡ map (driven_names sizes.now) sizes.now }
    ensures parts { IfOk result (λ v. map part_of v.items ≡ m.now.parts) }
    ensures each { IfOk result (λ v. AllByRecursion (IsPartPlan sizes.now names.now) v.items) }
{
    let mut parts = Vec::new(alloc);
    for part in &m.parts {
        parts.push(plan_part(alloc, sizes, all, names, part)?)?;
    }
    Ok(parts)
}

/// The plan of a model that drives these names, where the models drive the names `all`.
fn plan_model<'m, 'a>(
    alloc: Global,
    sizes: &Sizes,
    all: &[Names],
    names: &Names,
    model: &'m BlifModel<'a>,
) -> Result<Plan<'m, 'a>, AllocError>
    requires all { all.now ≡ map (driven_names sizes.now) sizes.now }
    requires names { names.now ≡ driven_names sizes.now model.now }
    requires formed { AllByRecursion IsFormedPart model.now.parts }
    ensures model { IfOk result (λ p. p.model.now ≡ model.now) }
    ensures is { IfOk result (λ p. IsPlan sizes.now p) }
{
    let parts = plan_parts(alloc, sizes, all, names, model)?;
    let outputs = slots_of(alloc, names, &model.outputs)?;
    let offsets = offsets_of(alloc, sizes, model)?;
    Ok(Plan {
        model,
        parts,
        outputs,
        offsets,
    })
}

/// The names that a model drives.
fn driven_set<'a>(alloc: Global, sizes: &Sizes, m: &BlifModel<'a>) -> Result<Names<'a>, AllocError>
    ensures { IfOk result (λ names. names ≡ driven_names sizes.now m.now) }
{
    let driven = names_driven(alloc, sizes.models(), m)?;
    distinct(alloc, &driven)
}

/// The names that each model drives.
fn driven_sets<'a>(
    alloc: Global,
    sizes: &Sizes,
    models: &[BlifModel<'a>],
) -> Result<Vec<Names<'a>>, AllocError>
    ensures { IfOk result (λ v. v.items ≡ map (driven_names sizes.now) models.now) }
{
    let mut all = Vec::new(alloc);
    for m in models {
        all.push(driven_set(alloc, sizes, m)?)?;
    }
    Ok(all)
}

/// The plans of models.
fn plans_of<'m, 'a>(
    alloc: Global,
    sizes: &Sizes,
    all: &[Names],
    models: &'m [BlifModel<'a>],
) -> Result<Vec<Plan<'m, 'a>>, AllocError>
    requires sizes { sizes.now ≡ models.now }
    requires all { all.now ≡ map (driven_names sizes.now) models.now }
    requires formed { AreFormed models.now }
    ensures models { IfOk result (λ v. map (λ p. p.model.now) v.items ≡ models.now) }
    ensures each { IfOk result (λ v. AllByRecursion (IsPlan models.now) v.items) }
{
    let mut plans = Vec::new(alloc);
    for i in 0..models.len() {
        plans.push(plan_model(alloc, sizes, all, &all[i], &models[i])?)?;
    }
    Ok(plans)
}

/// The plans of the models of a text, found by the places of the models.
#[derive(Drop)]
pub struct Plans<'m, 'a> {
    all: Vec<Plan<'m, 'a>>,
    none: Plan<'m, 'a>,
}

impl<'m, 'a> Model for Plans<'m, 'a> {
    ghost use Rattle.std.specs.Prelude.{◌≡◌, map};
    ghost use Rattle.std.specs.List.{AllByRecursion};
    ghost use Rattle.hierarchy_semantics.specs.Models.{Hierarchy, no_model};
    ghost use Rattle.hier_flat.specs.Plans.{IsPlan};

    ghost Value = { Hierarchy };

    ghost view = { λ a. map (λ p. p.model.now) a.all.items };

    ghost invariant = { λ a. (AllByRecursion (IsPlan (map (λ p. p.model.now) a.all.items)) a.all.items)
        × (IsPlan (map (λ p. p.model.now) a.all.items) a.none) × (a.none.model.now ≡ no_model) };
}

impl<'m, 'a> Plans<'m, 'a> {
    /// The plans of these models.
    pub fn new(
        alloc: Global,
        sizes: &Sizes,
        models: &'m [BlifModel<'a>],
        none: &'m BlifModel<'a>,
    ) -> Result<Plans<'m, 'a>, AllocError>
        requires sizes { sizes.now ≡ models.now }
        requires formed { AreFormed models.now }
        requires none { none.now ≡ no_model }
        ensures { IfOk result (λ p. p ≡ models.now) }
    {
        let names = driven_sets(alloc, sizes, models)?;
        let all = plans_of(alloc, sizes, &names, models)?;
        let nothing = Names::new(alloc);
        let none = plan_model(alloc, sizes, &names, &nothing, none)?;
        Ok(Plans { all, none })
    }

    /// The plan of the main model.
    pub fn main(&self) -> &Plan<'m, 'a>
        ensures is { IsPlan self.now result.now }
        ensures model { result.now.model.now ≡ main_of self.now }
    {
        if self.all.is_empty() {
            &self.none
        } else {
            &self.all[0]
        }
    }

    /// The plan of the model at a place, or that of the empty model where there is no place.
    pub fn at(&self, place: Option<usize>) -> &Plan<'m, 'a>
        requires { (i : ℕ) → place ≡ Some i → i < length self.now }
        ensures is { IsPlan self.now result.now }
        ensures model { (name : Bytes) → place ≡ place_of (model_names self.now) name
            → result.now.model.now ≡ model_named self.now name }
    {
        match place {
            Some(i) => &self.all[i],
            None => &self.none,
        }
    }
}
