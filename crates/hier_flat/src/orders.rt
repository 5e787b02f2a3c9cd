//! An order of the models of a hierarchy, in which they are counted.
ghost use Rattle.std.specs.Prelude.{◌≡◌, IfOk};
ghost use Rattle.hierarchy_semantics.specs.Refusals.{model_names};
ghost use Rattle.hier_parts.specs.Users.{IsModelOrder};
ghost use Rattle.hier_flat.specs.Hierarchies.{IsReading};

use hier_parts::models::BlifModel;
use hier_parts::names::Names;
use hier_parts::users::order_models;
use std::alloc::{AllocError, Global};

/// An order of the models of a hierarchy, each after those that it uses.
pub fn model_order(
    alloc: Global,
    names: &Names,
    models: &[BlifModel],
) -> Result<Vec<u32>, AllocError>
    requires reading { IsReading models.now }
    requires names { names.now ≡ model_names models.now }
    ensures { IfOk result (λ order. IsModelOrder models.now order.items) }
{
    let Ok(order) = order_models(alloc, names, models)? else {
        unreachable!()
    };
    Ok(order)
}
