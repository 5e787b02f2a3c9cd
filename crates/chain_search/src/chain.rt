//! The searches of `salsa`: whether the net to begin with keeps the bound, along the chain, and for the
//! greatest error.
use level_answers::margin::Margin;
use level_answers::query::Maximum;
use net_errors::compared::Compared;
use net_search::search::{Search, Shrunk};
use progress::progress::Progress;
use proof_semantics::constraint::Constraint;
use std::alloc::{AllocError, Global};
use synth_core::shrink::shrink_from;
use worst_case::beginning::within_bound;
use worst_case::judge::Judge;
use worst_case::maximum::maximum;

/// The search along the chain, and the searches by queries.
pub struct ChainSearch;

impl Search for ChainSearch {
    ghost takes = { λ net. Unit {0} };

    fn within<P: Progress>(
        alloc: Global,
        nets: &Compared,
        aim: Constraint,
        progress: &mut P,
    ) -> Result<Margin, AllocError> {
        within_bound(alloc, nets, aim, progress)
    }

    fn shrink<P: Progress>(
        alloc: Global,
        nets: &Compared,
        aim: Constraint,
        progress: &mut P,
    ) -> Result<Shrunk, AllocError> {
        shrink_from::<Judge, P>(alloc, nets, aim, progress)
    }

    fn maximum<P: Progress>(
        alloc: Global,
        nets: &Compared,
        aim: Constraint,
        progress: &mut P,
    ) -> Result<Maximum, AllocError> {
        maximum(alloc, nets, aim, progress)
    }
}
