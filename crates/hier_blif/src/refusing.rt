//! What keeps the models of a text from being a hierarchy. Source: BLIF's `.model` and `.subckt`; the order
//! of the tests is this tool's own.
ghost use Rattle.std.specs.Prelude.{◌≡◌, None, Some, IfOk, IfErr, OnOk};
ghost use Rattle.std.specs.Option.{option_map};
ghost use Rattle.semantics.specs.Net.{IsName};
ghost use Rattle.blif_semantics.specs.Reading.{doubled, undriven};
ghost use Rattle.blif_text.specs.Refusals as b;
ghost use Rattle.hierarchy_semantics.specs.Refusals.{ports, part, hier_refusal};
ghost use Rattle.hier_faults.specs.Faults.{fault_value};
ghost use Rattle.hier_faults.specs.Named.{AreNamed, TellsNames};
ghost use Rattle.hier_blif.specs.Refusals.{TellsOne, refusal_of};

use crate::refusal::HierRefusal;
use blif_text::refusal::BlifRefusal;
use hier_faults::faults::Fault;
use hier_faults::faulty::first_fault;
use hier_parts::models::BlifModel;
use net_parts::name::Name;
use std::alloc::{AllocError, Global};

/// The refusal of a model that is used and has a name twice among its ports.
fn ports_refusal(alloc: Global, model: &[u8], name: &[u8]) -> Result<HierRefusal, AllocError>
    requires model { IsName model.now }
    requires name { IsName name.now }
    ensures { IfOk result (λ told. refusal_of told ≡ Some (ports model.now name.now)) }
{
    let model = Name::known(alloc, model)?;
    let name = Name::known(alloc, name)?;
    Ok(HierRefusal::Ports { model, name })
}

/// The refusal of a model that is not whole.
fn part_refusal(
    alloc: Global,
    model: &[u8],
    refusal: BlifRefusal,
) -> Result<HierRefusal, AllocError>
    requires { IsName model.now }
    ensures { IfOk result (λ told. refusal_of told ≡ option_map (part model.now) (b.refusal_of refusal)) }
{
    let model = Name::known(alloc, model)?;
    Ok(HierRefusal::Part { model, refusal })
}

/// The refusal of a model in which a name is driven twice.
fn doubled_refusal(alloc: Global, model: &[u8], name: &[u8]) -> Result<HierRefusal, AllocError>
    requires model { IsName model.now }
    requires name { IsName name.now }
    ensures { IfOk result (λ told. refusal_of told ≡ Some (part model.now (doubled name.now))) }
{
    let name = Name::known(alloc, name)?;
    part_refusal(alloc, model, BlifRefusal::Doubled { name })
}

/// The refusal of a model in which a name is read and not driven.
fn undriven_refusal(alloc: Global, model: &[u8], name: &[u8]) -> Result<HierRefusal, AllocError>
    requires model { IsName model.now }
    requires name { IsName name.now }
    ensures { IfOk result (λ told. refusal_of told ≡ Some (part model.now (undriven name.now))) }
{
    let name = Name::known(alloc, name)?;
    part_refusal(alloc, model, BlifRefusal::Undriven { name })
}

/// The refusal that tells a fault, with names of its own.
fn refusal_of(alloc: Global, fault: Fault) -> Result<HierRefusal, AllocError>
    requires { TellsNames (fault_value fault) }
    ensures { IfOk result (λ told. refusal_of told ≡ Some (fault_value fault.entry)) }
{
    match fault {
        Fault::SameModel(name) => Ok(HierRefusal::SameModel(Name::known(alloc, name)?)),
        Fault::NoModel(name) => Ok(HierRefusal::NoModel(Name::known(alloc, name)?)),
        Fault::Recursive(name) => Ok(HierRefusal::Recursive(Name::known(alloc, name)?)),
        Fault::Ports { model, name } => ports_refusal(alloc, model, name),
        Fault::Formal { line, name } => {
            let name = Name::known(alloc, name)?;
            Ok(HierRefusal::Formal { line, name })
        }
        Fault::Unbound { line, name } => {
            let name = Name::known(alloc, name)?;
            Ok(HierRefusal::Unbound { line, name })
        }
        Fault::Doubled { model, name } => doubled_refusal(alloc, model, name),
        Fault::NoOutput { model } => part_refusal(alloc, model, BlifRefusal::NoOutput),
        Fault::Undriven { model, name } => undriven_refusal(alloc, model, name),
        Fault::Taken(name) => Ok(HierRefusal::Taken(Name::known(alloc, name)?)),
    }
}

/// Succeeds where the models are a hierarchy; else returns the first refusal. Each word in a name's place is
/// a name.
pub fn refuse(alloc: Global, models: &[BlifModel]) -> Result<(), HierRefusal>
    requires { AreNamed models.now }
    ensures ok { OnOk result (hier_refusal models.now ≡ None) }
    ensures err { IfErr result (λ told. TellsOne told (hier_refusal models.now)) }
{
    match first_fault(alloc, models)? {
        None => Ok(()),
        Some(fault) => Err(refusal_of(alloc, fault)?),
    }
}
