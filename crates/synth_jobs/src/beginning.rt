//! Whether a second net may be certified or refined: it needs the ports of the exact one, and an error within
//! the bound.
ghost use Rattle.std.specs.Prelude.{◌≤◌, IfOk};
ghost use Rattle.semantics.specs.Net.{NetValue, IsSound, IsSmall, HasSamePorts};
ghost use Rattle.net_search.specs.Bounds.{IsBoundAnswer};
ghost use Rattle.synth_jobs.specs.Beginnings.{IsBeginningJudged};

use level_answers::margin::Margin;
use level_answers::query::Spent;
use net_core::items::Bits;
use net_core::net::Net;
use net_errors::compared::Compared;
use net_errors::ports::same_ports;
use net_search::search::Search;
use progress::progress::Progress;
use proof_semantics::constraint::Constraint;
use std::alloc::{AllocError, Global};

/// How a second net stands to the exact one.
#[derive(Drop)]
pub enum Beginning {
    /// It has other ports.
    Ports,
    /// Its error exceeds the bound at this input vector.
    Over(Bits),
    /// The conflicts of that question were spent.
    Spent(Spent),
    /// It keeps the bound.
    Within,
}

/// How a second net with the same ports stands to the exact one.
fn judged(margin: Margin) -> Beginning
    ensures { (aim : Constraint) (exact begin : NetValue) → HasSamePorts exact begin → IsSound begin
        → IsBoundAnswer aim exact begin margin → IsBeginningJudged aim exact begin result }
{
    match margin {
        Margin::Over(x) => Beginning::Over(x),
        Margin::Within => Beginning::Within,
        Margin::Spent(spent) => Beginning::Spent(spent),
    }
}

/// Judges a second net against the exact one: first its ports, then its error.
pub fn judge_beginning<S: Search, P: Progress>(
    alloc: Global,
    aim: Constraint,
    exact: &Net,
    begin: &Net,
    progress: &mut P,
) -> Result<Beginning, AllocError>
    requires small { IsSmall exact.now }
    requires takes { S.takes exact.now }
    requires limit { 1 ≤ aim.limit }
    ensures { IfOk result (IsBeginningJudged aim exact.now begin.now) }
{
    if !same_ports(exact, begin) {
        return Ok(Beginning::Ports);
    }
    begin.see_sound();
    let nets = Compared::new(exact, begin);
    let margin = S::within(alloc, &nets, aim, progress)?;
    Ok(judged(margin))
}
