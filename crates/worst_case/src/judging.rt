//! The judge of a search along a chain: a [`Judge`], asked by [`within_level_after`].
use crate::judge::Judge;
use crate::policy::within_level_after;
use level_answers::margin::Margin;
use net_core::net::Net;
use net_errors::compared::Compared;
use net_search::judging::{Change, Judging};
use progress::progress::Progress;
use proof_semantics::constraint::Constraint;
use std::alloc::{AllocError, Global};

impl<'a> Judging<'a> for Judge<'a> {
    ghost exact = { λ judge. judge };

    ghost takes = { λ net. Unit {0} };

    fn begin(alloc: Global, net: &'a Net) -> Result<Judge<'a>, AllocError> {
        Judge::new(alloc, net)
    }

    fn judge<P: Progress>(
        &mut self,
        alloc: Global,
        nets: &Compared,
        change: &Change,
        aim: Constraint,
        progress: &mut P,
    ) -> Result<Margin, AllocError> {
        within_level_after(alloc, nets, change, self, aim, progress)
    }
}
