//! Whether a move that no known vector breaks keeps the bound: it is made in a copy of the net, and the moved
//! net is judged.
ghost use Rattle.std.specs.Prelude.{◌≡◌, ◌+◌, ◌≤◌, IfOk, Contains};
ghost use Rattle.semantics.specs.Net.{input_count, IsSound};
ghost use Rattle.semantics.specs.Error.{IsCandidate, IsWithin};
ghost use Rattle.chain_semantics.specs.Moves.{moves_of, table_of};
ghost use Rattle.chain_semantics.specs.Simplification.{IsAllowedMove};
ghost use Rattle.net_search.specs.Judging.{IsChange};
ghost use Rattle.synth_core.specs.MoveTrials.{IsJudged, IsTrial};

use crate::tester::Tester;
use chain_semantics::moves::Move;
use level_answers::margin::Margin;
use net_core::items::Signal;
use net_core::net::Net;
use net_errors::compared::Compared;
use net_moves::apply::{make, table_of, take_back};
use net_search::judging::{Change, Judging};
use progress::progress::Progress;
use semantics::limits::FEW_INPUTS;
use std::alloc::{AllocError, Global};

/// Whether a moved net keeps the bound, which the net before the move keeps. With few inputs every vector is
/// known to break no move that is left, so nothing is asked.
fn keeps_bound<'a, J: Judging<'a>, P: Progress>(
    alloc: Global,
    nets: &Compared,
    tester: &mut Tester<J>,
    moved: &Net,
    signal: Signal,
    progress: &mut P,
) -> Result<Margin, AllocError>
    requires judge { J.exact tester.old.judge ≡ nets.now.exact }
    requires limit { 1 ≤ tester.old.aim.limit }
    requires within { IsWithin tester.old.aim.metric nets.now.exact tester.old.aim.bound nets.now.approx }
    requires change { IsChange nets.now.approx moved.now signal }
    requires candidate { IsCandidate nets.now.exact moved.now }
    requires known { input_count nets.now.exact ≤ FEW_INPUTS
        → IsWithin tester.old.aim.metric nets.now.exact tester.old.aim.bound moved.now }
    ensures aim { tester.new.aim ≡ tester.old.aim }
    ensures pool { tester.new.pool ≡ tester.old.pool }
    ensures judge { J.exact tester.new.judge ≡ J.exact tester.old.judge }
    ensures judged { IfOk result (IsJudged tester.old.aim nets.now.exact moved.now) }
{
    if nets.exact().inputs() <= FEW_INPUTS {
        return Ok(Margin::Within);
    }
    let moved_nets = Compared::new(nets.exact(), moved);
    let change = Change {
        before: nets.approx(),
        signal,
    };
    let aim = tester.aim;
    tester
        .judge
        .judge(alloc, &moved_nets, &change, aim, progress)
}

/// The signal of the table that one of the net's moves changes.
fn moved_signal(net: &Net, candidate: Move) -> Signal
    requires { Contains (moves_of net.now) candidate }
    ensures signal { result ≡ input_count net.now + table_of candidate }
    ensures sound { IsSound net.now }
{
    net.see_sound();
    net.inputs() + table_of(candidate)
}

/// Tries a move of the approximate net that no known vector breaks, in a copy of the net. A move that breaks
/// the bound is taken back.
pub(crate) fn try_move<'a, J: Judging<'a>, P: Progress>(
    alloc: Global,
    nets: &Compared,
    tester: &mut Tester<J>,
    scratch: &mut Net,
    candidate: Move,
    progress: &mut P,
) -> Result<Margin, AllocError>
    requires judge { J.exact tester.old.judge ≡ nets.now.exact }
    requires limit { 1 ≤ tester.old.aim.limit }
    requires within { IsWithin tester.old.aim.metric nets.now.exact tester.old.aim.bound nets.now.approx }
    requires scratch { scratch.old ≡ nets.now.approx }
    requires offered { Contains (moves_of nets.now.approx) candidate }
    requires known { input_count nets.now.exact ≤ FEW_INPUTS → IsAllowedMove tester.old.aim.metric
        nets.now.exact tester.old.aim.bound nets.now.approx candidate }
    ensures aim { tester.new.aim ≡ tester.old.aim }
    ensures pool { tester.new.pool ≡ tester.old.pool }
    ensures judge { J.exact tester.new.judge ≡ J.exact tester.old.judge }
    ensures trial { IfOk result (IsTrial tester.old.aim nets.now candidate scratch.new) }
{
    let signal = moved_signal(nets.approx(), candidate);
    let table = make(alloc, scratch, candidate)?;
    match keeps_bound(alloc, nets, tester, scratch, signal, progress)? {
        Margin::Over(x) => {
            take_back(scratch, candidate, table)?;
            Ok(Margin::Over(x))
        }
        Margin::Within => Ok(Margin::Within),
        Margin::Spent(spent) => Ok(Margin::Spent(spent)),
    }
}
