//! The judge of a search along a chain with few inputs: every vector is tried. Such a search knows every
//! vector itself, and asks nobody; but it is made for any judge.
ghost use Rattle.std.specs.Prelude.{◌≤◌};
ghost use Rattle.semantics.specs.Net.{input_count};

use crate::search::hold;
use every_vector::vectors::try_vectors;
use level_answers::margin::Margin;
use net_core::net::Net;
use net_errors::compared::Compared;
use net_search::judging::{Change, Judging};
use progress::progress::Progress;
use proof_semantics::constraint::Constraint;
use std::alloc::{AllocError, Global};
use std::marker::Model;

/// An exact net with few inputs.
#[derive(Drop)]
pub(crate) struct VectorJudge<'a> {
    exact: &'a Net,
}

impl<'a> Model for VectorJudge<'a> {
    ghost use Rattle.std.specs.Prelude.{◌≤◌};
    ghost use Rattle.semantics.specs.Net.{NetValue, input_count};
    ghost use Rattle.semantics.specs.declared.limits.TheConstants.{FEW_INPUTS};

    ghost Value = { NetValue };

    ghost view = { λ j. j.exact.now };

    ghost invariant = { λ j. input_count j.exact.now ≤ FEW_INPUTS };
}

impl<'a> Judging<'a> for VectorJudge<'a> {
    ghost use Rattle.semantics.specs.declared.limits.TheConstants.{FEW_INPUTS};

    ghost exact = { λ judge. judge };

    ghost takes = { λ net. input_count net ≤ FEW_INPUTS };

    fn begin(_alloc: Global, net: &'a Net) -> Result<VectorJudge<'a>, AllocError> {
        Ok(VectorJudge { exact: net })
    }

    #[tactic(auto, using(crate::proofs::Few::within_every))]
    fn judge<P: Progress>(
        &mut self,
        alloc: Global,
        nets: &Compared,
        _change: &Change,
        aim: Constraint,
        _progress: &mut P,
    ) -> Result<Margin, AllocError> {
        let every = hold(alloc, self.exact)?;
        match try_vectors(alloc, nets, &every, aim)? {
            Some(x) => Ok(Margin::Over(x)),
            None => Ok(Margin::Within),
        }
    }
}
