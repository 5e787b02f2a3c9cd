//! What the use of a model needs of it, found by the model's name.
ghost use Rattle.std.specs.Prelude.{◌≡◌, IfOk};
ghost use Rattle.semantics.specs.Refusals.{has_name};
ghost use Rattle.blif_text.specs.Names.{place_of};
ghost use Rattle.hierarchy_semantics.specs.Models.{no_model, model_named};
ghost use Rattle.hierarchy_semantics.specs.Refusals.{model_names};
ghost use Rattle.hier_parts.specs.Sets.{with_names};

use crate::models::BlifModel;
use crate::names::{Names, set_of};
use std::alloc::{AllocError, Global};
use std::marker::Model;

/// A model, and the sets of its ports.
#[derive(Drop)]
pub struct Interface<'m, 'a> {
    model: &'m BlifModel<'a>,
    ports: Names<'a>,
    inputs: Names<'a>,
    outputs: Names<'a>,
}

impl<'m, 'a> Model for Interface<'m, 'a> {
    ghost use Rattle.std.specs.Prelude.{◌≡◌, []};
    ghost use Rattle.hierarchy_semantics.specs.Models.{BlifModel};
    ghost use Rattle.hier_parts.specs.Sets.{with_names};

    ghost Value = { BlifModel };

    ghost view = { λ a. a.model.now };

    ghost invariant = { λ a. (a.ports ≡ with_names [] a.model.now.ports)
        × (a.inputs ≡ with_names [] a.model.now.inputs) × (a.outputs ≡ with_names [] a.model.now.outputs) };
}

impl<'m, 'a> Interface<'m, 'a> {
    fn new(alloc: Global, model: &'m BlifModel<'a>) -> Result<Interface<'m, 'a>, AllocError>
        ensures { IfOk result (λ i. i ≡ model.now) }
    {
        let ports = set_of(alloc, &model.ports)?;
        let inputs = set_of(alloc, &model.inputs)?;
        let outputs = set_of(alloc, &model.outputs)?;
        Ok(Interface {
            model,
            ports,
            inputs,
            outputs,
        })
    }

    /// The model.
    pub fn model(&self) -> &'m BlifModel<'a>
        ensures { result.now ≡ self.now }
    {
        self.model
    }

    /// Whether the model has an input or an output of this name.
    pub fn has_port(&self, name: &[u8]) -> bool
        ensures { result ≡ has_name self.now.ports name.now }
    {
        self.ports.contains(name)
    }

    /// Whether the model has an input of this name.
    pub fn has_input(&self, name: &[u8]) -> bool
        ensures { result ≡ has_name self.now.inputs name.now }
    {
        self.inputs.contains(name)
    }

    /// Whether the model has an output of this name.
    pub fn has_output(&self, name: &[u8]) -> bool
        ensures { result ≡ has_name self.now.outputs name.now }
    {
        self.outputs.contains(name)
    }
}

/// What the uses of these models need of them.
fn interfaces_of<'m, 'a>(
    alloc: Global,
    models: &'m [BlifModel<'a>],
) -> Result<Vec<Interface<'m, 'a>>, AllocError>
    ensures { IfOk result (λ all. all.items ≡ models.now) }
{
    let mut all = Vec::new(alloc);
    for model in models {
        all.push(Interface::new(alloc, model)?)?;
    }
    Ok(all)
}

/// The models of a text, found by their names.
#[derive(Drop)]
pub struct Interfaces<'m, 'a> {
    names: Names<'a>,
    all: Vec<Interface<'m, 'a>>,
    none: Interface<'m, 'a>,
}

impl<'m, 'a> Model for Interfaces<'m, 'a> {
    ghost use Rattle.std.specs.Prelude.{◌≡◌};
    ghost use Rattle.hierarchy_semantics.specs.Models.{Hierarchy, no_model};
    ghost use Rattle.hierarchy_semantics.specs.Refusals.{model_names};

    ghost Value = { Hierarchy };

    ghost view = { λ a. a.all.items };

    ghost invariant = { λ a. (a.names ≡ model_names a.all.items) × (a.none ≡ no_model) };
}

impl<'m, 'a> Interfaces<'m, 'a> {
    /// The interfaces of models that differ in their names.
    pub fn new(
        alloc: Global,
        names: Names<'a>,
        models: &'m [BlifModel<'a>],
        none: &'m BlifModel<'a>,
    ) -> Result<Interfaces<'m, 'a>, AllocError>
        requires names { names ≡ model_names models.now }
        requires none { none.now ≡ no_model }
        ensures { IfOk result (λ i. i ≡ models.now) }
    {
        let all = interfaces_of(alloc, models)?;
        let none = Interface::new(alloc, none)?;
        Ok(Interfaces { names, all, none })
    }

    /// The place of the model with a name.
    pub fn place(&self, name: &[u8]) -> Option<usize>
        ensures { result ≡ place_of (model_names self.now) name.now }
    {
        self.names.place(name)
    }

    /// The model of a name, or the empty one where none has it.
    pub fn of(&self, name: &[u8]) -> &Interface<'m, 'a>
        ensures { result.now ≡ model_named self.now name.now }
    {
        match self.names.place(name) {
            Some(i) => &self.all[i],
            None => &self.none,
        }
    }
}
