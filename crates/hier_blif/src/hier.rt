//! A hierarchy of models, and its flat net. Source: BLIF's `.subckt`; the names of the tables inside are this
//! tool's own.
ghost use Rattle.std.specs.Prelude.{◌≡◌, Ok, IfOk, IfErr};
ghost use Rattle.semantics.specs.Net.{IsSound, IsSmall};
ghost use Rattle.hierarchy_semantics.specs.Models.{hierarchy_of};
ghost use Rattle.hierarchy_semantics.specs.Flat.{flattened};
ghost use Rattle.hier_flat.specs.Hierarchies.{IsReading};
ghost use Rattle.hier_blif.specs.Refusals.{Tells};

use crate::refusal::{HierRefusal, flat_refusal};
use blif_text::line_list::LineList;
use hier_flat::flat_net::flatten_models;
use hier_parts::models::hierarchy_of;
use hier_parts::statements::statements;
use net_core::net::Net;
use std::alloc::Global;
use std::marker::Model;

/// The models of a text, which have no refusal: its lines, in which no line is wrong.
#[derive(Drop)]
pub struct Hier {
    lines: LineList,
}

impl Model for Hier {
    ghost use Rattle.hierarchy_semantics.specs.Models.{Hierarchy, hierarchy_of};
    ghost use Rattle.hier_flat.specs.Hierarchies.{IsReading};

    ghost Value = { Hierarchy };

    ghost view = { λ a. hierarchy_of a.lines };

    ghost invariant = { λ a. IsReading (hierarchy_of a.lines) };
}

impl Hier {
    /// The hierarchy of these lines, which are those of a text that is read.
    pub(crate) fn new(lines: LineList) -> Hier
        requires { IsReading (hierarchy_of lines) }
        ensures { result ≡ hierarchy_of lines }
    {
        Hier { lines }
    }

    /// The flat net: the main model, with the flat tables of each model that is used in the place of its use.
    /// Whether the net passes a limit is decided by counting, before it is made. The call refuses by `Flat`
    /// and for want of memory alone.
    pub fn flatten(&self, alloc: Global) -> Result<Net, HierRefusal>
        ensures ok { IfOk result (λ n. flattened self.now ≡ Ok n) }
        ensures sound { IfOk result (λ n. IsSound n) }
        ensures small { IfOk result (λ n. IsSmall n) }
        ensures err { IfErr result (λ told. Tells told (flattened self.now)) }
    {
        let statements = statements(alloc, self.lines.as_slice())?;
        let models = hierarchy_of(alloc, &statements)?;
        match flatten_models(alloc, &models) {
            Ok(net) => Ok(net),
            Err(told) => Err(flat_refusal(told)),
        }
    }
}
