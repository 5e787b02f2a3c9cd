//! Models that use themselves: an order of models is sought in which each stands after those that it uses.
ghost use Rattle.std.specs.Prelude.{◌≡◌, IfOk, None};
ghost use Rattle.std.specs.Option.{option_map};
ghost use Rattle.hierarchy_semantics.specs.Refusals.{recursive, model_names, first_unknown, first_recursive};
ghost use Rattle.hier_faults.specs.Faults.{fault_value};
ghost use Rattle.hier_faults.specs.Named.{AreNamed};

use crate::faults::Fault;
use hier_parts::models::BlifModel;
use hier_parts::names::Names;
use hier_parts::users::order_models;
use std::alloc::{AllocError, Global};

/// The first model that uses itself or one that does, where each model that is used is there.
pub fn recursive<'a>(
    alloc: Global,
    names: &Names,
    models: &[BlifModel<'a>],
) -> Result<Option<Fault<'a>>, AllocError>
    requires names { names.now ≡ model_names models.now }
    requires named { AreNamed models.now }
    requires known { first_unknown models.now ≡ None }
    ensures { IfOk result (λ o. option_map fault_value o
        ≡ option_map (λ m. recursive m.name) (first_recursive models.now)) }
{
    match order_models(alloc, names, models)? {
        Ok(_) => Ok(None),
        Err(i) => {
            let m = &models[i as usize];
            Ok(Some(Fault::Recursive(m.name)))
        }
    }
}
