//! Who judges nets, one after another, against one exact net. A search along a chain makes each net from one
//! that keeps the bound, by a change of one signal's function, and what is judged may make use of that.
ghost use Rattle.std.specs.Prelude.{◌≡◌, ◌≤◌, IfOk};
ghost use Rattle.semantics.specs.Net.{NetValue, IsSmall};
ghost use Rattle.semantics.specs.Error.{IsWithin};
ghost use Rattle.level_answers.specs.Levels.{IsLevelAnswer};
ghost use Rattle.net_search.specs.Judging.{IsChange};

use level_answers::margin::Margin;
use net_core::items::Signal;
use net_core::net::Net;
use net_errors::compared::Compared;
use progress::progress::Progress;
use proof_semantics::constraint::Constraint;
use std::alloc::{AllocError, Global};

/// A net, and the signal by whose function alone another net differs from it.
#[derive(Drop)]
pub struct Change<'a> {
    pub before: &'a Net,
    pub signal: Signal,
}

/// Who judges approximate nets against one exact net, over many questions. What is computed of the exact net
/// is held meanwhile.
pub trait Judging<'a>: Drop {
    ghost exact: { Self → NetValue };

    /// The exact nets against which the judge can judge.
    ghost takes: { NetValue → Type 0 };

    /// Begins with what is computed of the exact net once.
    fn begin(alloc: Global, net: &'a Net) -> Result<Self, AllocError>
        requires small { IsSmall net.now }
        requires takes { takes net.now }
        ensures { IfOk result (λ judge. exact judge ≡ net.now) };

    /// Whether the error of an approximate net stays within the bound, where the error of the net before the
    /// change does: an input at which it does not, or that there is none.
    fn judge<P: Progress>(
        &mut self,
        alloc: Global,
        nets: &Compared,
        change: &Change,
        aim: Constraint,
        progress: &mut P,
    ) -> Result<Margin, AllocError>
        requires judge { exact self.old ≡ nets.now.exact }
        requires limit { 1 ≤ aim.limit }
        requires before { IsWithin aim.metric nets.now.exact aim.bound change.now.before.now }
        requires change { IsChange change.now.before.now nets.now.approx change.now.signal }
        ensures same { exact self.new ≡ exact self.old }
        ensures answer { IfOk result (IsLevelAnswer aim nets.now.exact nets.now.approx) };
}
