//! Why a text of several models gives no flat net. Source: BLIF; what is refused, and in which order, is this
//! tool's own.
ghost use Rattle.std.specs.Prelude.{◌≡◌, Some, Result, Err};
ghost use Rattle.semantics.specs.Net.{NetValue};
ghost use Rattle.blif_semantics.specs.Reading as r;
ghost use Rattle.blif_text.specs.Refusals as b;
ghost use Rattle.hierarchy_semantics.specs.Refusals as h;
ghost use Rattle.hierarchy_semantics.specs.Refusals.{line};
ghost use Rattle.hier_flat.specs.Refusals as flat;
ghost use Rattle.hier_blif.specs.Refusals.{Tells, TellsOne, number_of};
ghost use Rattle.hier_blif.specs.declared.refusal.HierRefusal.TheVariants.{OutOfMemory as NoMemory};

use blif_text::refusal::BlifRefusal;
use net_parts::name::Name;
use std::alloc::AllocError;
use thiserror::Error;

/// Why a text of several models is refused, in the order in which it is tested. Lines are counted from 1.
#[derive(Debug, Drop, Error)]
pub enum HierRefusal {
    /// The text is too long, or a line is wrong.
    #[error("a line is wrong")]
    Line(BlifRefusal),
    /// A model's name stands a second time.
    #[error("two models have one name")]
    SameModel(Name),
    /// A `.subckt` names no model of the text.
    #[error("a model is used that is not there")]
    NoModel(Name),
    /// A model uses itself or a model that does.
    #[error("a model uses itself or one that does")]
    Recursive(Name),
    /// A model that is used has a name twice among its inputs and outputs.
    #[error("a model that is used has a port twice")]
    Ports { model: Name, name: Name },
    /// What is bound is no port of the model, or is bound a second time.
    #[error("line {line}: what is bound is no port, or is bound twice")]
    Formal { line: u64, name: Name },
    /// An input of the model that is used is not bound.
    #[error("line {line}: an input is not bound")]
    Unbound { line: u64, name: Name },
    /// In a model a name is driven twice, no output is listed, or a name that is read is not driven.
    #[error("a model is not whole")]
    Part { model: Name, refusal: BlifRefusal },
    /// A name that the main model drives is `$u` and digits, as those of the flat tables of other models are.
    #[error("a name of the main model is that of a flat table")]
    Taken(Name),
    /// The flat net passes a limit or has a cycle.
    #[error("the flat net passes a limit or has a cycle")]
    Flat(BlifRefusal),
    #[error("out of memory")]
    OutOfMemory,
}

impl HierRefusal {
    /// The refusal's number in the order of the tests, from 1.
    pub fn number(&self) -> u8
        ensures { result ≡ number_of self.now }
    {
        match self {
            HierRefusal::Line(_) => 1,
            HierRefusal::SameModel(_) => 2,
            HierRefusal::NoModel(_) => 3,
            HierRefusal::Recursive(_) => 4,
            HierRefusal::Ports { .. } => 5,
            HierRefusal::Formal { .. } => 6,
            HierRefusal::Unbound { .. } => 7,
            HierRefusal::Part { .. } => 8,
            HierRefusal::Taken(_) => 9,
            HierRefusal::Flat(_) => 10,
            HierRefusal::OutOfMemory => 11,
        }
    }
}

impl From<AllocError> for HierRefusal {
    ghost from_gives = { λ _ e. e ≡ NoMemory };

    fn from(_: AllocError) -> HierRefusal {
        HierRefusal::OutOfMemory
    }
}

/// The refusal of a line.
pub(crate) fn line_refusal(refusal: BlifRefusal) -> HierRefusal
    ensures { (answer : r.Refusal) → b.Tells refusal (Err answer) → TellsOne result (Some (line answer)) }
{
    match refusal {
        BlifRefusal::OutOfMemory => HierRefusal::OutOfMemory,
        refusal => HierRefusal::Line(refusal),
    }
}

/// The refusal of a flat net.
pub(crate) fn flat_refusal(refusal: BlifRefusal) -> HierRefusal
    ensures { (answer : Result NetValue h.HierRefusal) → flat.Tells refusal answer → Tells result answer }
{
    match refusal {
        BlifRefusal::OutOfMemory => HierRefusal::OutOfMemory,
        refusal => HierRefusal::Flat(refusal),
    }
}
