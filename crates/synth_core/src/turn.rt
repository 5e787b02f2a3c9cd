//! One turn of the search: from a member of the chain to the next, or to the end.
ghost use Rattle.std.specs.Prelude.{◌≡◌, ◌≤◌, IfOk};
ghost use Rattle.chain_semantics.specs.Simplification.{IsInSimplificationFrom};
ghost use Rattle.synth_core.specs.AllowedMoves.{IsPool};
ghost use Rattle.synth_core.specs.Turns.{IsReadyFor, IsTurn};

use crate::allowed_move::{Found, find_move};
use crate::tester::Tester;
use level_answers::query::Spent;
use net_core::net::Net;
use net_errors::compared::Compared;
use net_search::judging::Judging;
use net_tidy::tidy::tidy;
use progress::progress::Progress;
use std::alloc::{AllocError, Global};

/// What a turn comes to.
#[derive(Drop)]
pub(crate) enum Turn {
    /// This is the next member.
    Next(Net),
    /// No move is allowed, or this query was spent before an allowed move was found.
    End(Option<Spent>),
}

/// Makes the first allowed move of a member in a copy of it, and tidies the moved net. Tells `progress` the
/// literals of the member, and then each table as its moves begin.
pub(crate) fn take_turn<'a, J: Judging<'a>, P: Progress>(
    alloc: Global,
    nets: &Compared,
    tester: &mut Tester<J>,
    member: &Net,
    progress: &mut P,
) -> Result<Turn, AllocError>
    requires ready { IsReadyFor tester.old.aim nets.now (J.exact tester.old.judge) }
    requires limit { 1 ≤ tester.old.aim.limit }
    requires member { IsInSimplificationFrom tester.old.aim.metric nets.now.exact tester.old.aim.bound
        nets.now.approx member.now }
    requires pool { IsPool nets.now.exact tester.old.pool }
    ensures aim { tester.new.aim ≡ tester.old.aim }
    ensures judge { J.exact tester.new.judge ≡ J.exact tester.old.judge }
    ensures pool { IfOk result (λ _. IsPool nets.now.exact tester.new.pool) }
    ensures turn { IfOk result (IsTurn tester.old.aim nets.now member.now tester.new.pool.vectors) }
{
    progress.reached(member.literals());
    let pair = Compared::new(nets.exact(), member);
    match find_move(alloc, &pair, tester, progress)? {
        Found::Moved(moved) => Ok(Turn::Next(tidy(alloc, moved)?)),
        Found::End => Ok(Turn::End(None)),
        Found::Spent(spent) => Ok(Turn::End(Some(spent))),
    }
}
