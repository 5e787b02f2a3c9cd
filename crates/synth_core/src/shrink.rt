//! The chain of simplifications, from the net that the beginning is tidied to, to the member of which no move
//! is allowed.
//!
//! A move that some known input vector breaks is refused by the masks of the member, without making the moved
//! net. With few inputs every vector is known, so every other move is allowed. With more inputs the known
//! vectors are those that broke earlier moves, and each other move is made and judged, by what is held of the
//! exact net over the whole chain. With at most sixteen inputs every vector is tried; with more inputs some
//! vectors are tried, then diagrams are asked, and then, with at most 24 inputs, every vector is tried. With
//! still more inputs a query may be asked. An allowed move is made, the moved net is tidied, and the moves
//! begin again, since a move that was refused before may be allowed now. The chain ends, since each move
//! removes literals, or it stops at the first spent query.
ghost use Rattle.std.specs.Prelude.{◌≡◌, ◌≤◌, length, option_map, IfOk};
ghost use Rattle.semantics.specs.Net.{input_count, IsSmall};
ghost use Rattle.semantics.specs.Error.{IsWithin};
ghost use Rattle.chain_semantics.specs.Simplification.{IsInSimplificationFrom};
ghost use Rattle.job_semantics.specs.Shrinking.{IsShrinking};
ghost use Rattle.level_answers.specs.Exceeds.{spent_value};
ghost use Rattle.synth_core.specs.AllowedMoves.{IsPool};
ghost use Rattle.synth_core.specs.Turns.{IsReadyFor};

use crate::tester::{Tester, tester_for};
use crate::turn::{Turn, take_turn};
use level_answers::query::Spent;
use net_core::net::Net;
use net_errors::compared::Compared;
use net_search::judging::Judging;
use net_search::search::Shrunk;
use net_tidy::tidy::tidy;
use progress::progress::{Progress, Silent};
use proof_semantics::constraint::Constraint;
use semantics::limits::MOST_OUTPUTS;
use std::alloc::{AllocError, Global};

/// Goes from member to member of the chain, up to its end or to a spent query. Returns the spent query.
fn follow<'a, J: Judging<'a>, P: Progress>(
    alloc: Global,
    nets: &Compared,
    tester: &mut Tester<J>,
    member: &mut Net,
    progress: &mut P,
) -> Result<Option<Spent>, AllocError>
    requires ready { IsReadyFor tester.old.aim nets.now (J.exact tester.old.judge) }
    requires limit { 1 ≤ tester.old.aim.limit }
    requires member { IsInSimplificationFrom tester.old.aim.metric nets.now.exact tester.old.aim.bound
        nets.now.approx member.old }
    requires pool { IsPool nets.now.exact tester.old.pool }
    ensures pool { IfOk result (λ _. IsPool nets.now.exact tester.new.pool) }
    ensures shrinking { IfOk result
        (λ spent. IsShrinking tester.old.aim nets.now.exact nets.now.approx
        (record { net = member.new; pool = tester.new.pool.vectors; spent = option_map spent_value spent })) }
{
    loop {
        match take_turn(alloc, nets, tester, member, progress)? {
            Turn::Next(next) => *member = next,
            Turn::End(spent) => return Ok(spent),
        }
    }
}

/// Follows the chain of simplifications that begins with the approximate net, within the bound on the error
/// against the exact one. Tells `progress` how far the search is.
pub fn shrink_from<'a, J: Judging<'a>, P: Progress>(
    alloc: Global,
    nets: &Compared<'a>,
    aim: Constraint,
    progress: &mut P,
) -> Result<Shrunk, AllocError>
    requires exact { IsSmall nets.now.exact }
    requires takes { J.takes nets.now.exact }
    requires begin { IsSmall nets.now.approx }
    requires within { IsWithin aim.metric nets.now.exact aim.bound nets.now.approx }
    requires limit { 1 ≤ aim.limit }
    ensures shrinking { IfOk result (λ s. IsShrinking aim nets.now.exact nets.now.approx
        (record { net = s.net; pool = s.pool.vectors; spent = option_map spent_value s.spent })) }
    ensures pool { IfOk result (λ s. s.pool.inputs ≡ input_count nets.now.exact) }
{
    nets.approx().see_sound();
    let mut tester: Tester<J> = tester_for(alloc, nets.exact(), aim)?;
    let mut member = tidy(alloc, nets.approx().copy()?)?;
    let spent = follow(alloc, nets, &mut tester, &mut member, progress)?;
    Ok(Shrunk {
        net: member,
        pool: tester.pool,
        spent,
    })
}

/// Follows the chain of simplifications that begins with the exact net itself, as [`shrink_from`] does.
pub fn shrink<'a, J: Judging<'a>>(
    alloc: Global,
    net: &'a Net,
    aim: Constraint,
) -> Result<Shrunk, AllocError>
    requires few_outputs { length net.now.outputs ≤ MOST_OUTPUTS }
    requires small { IsSmall net.now }
    requires takes { J.takes net.now }
    requires limit { 1 ≤ aim.limit }
    ensures shrinking { IfOk result (λ s. IsShrinking aim net.now net.now
        (record { net = s.net; pool = s.pool.vectors; spent = option_map spent_value s.spent })) }
    ensures pool { IfOk result (λ s. s.pool.inputs ≡ input_count net.now) }
{
    let nets = Compared::new(net, net);
    shrink_from::<J, Silent>(alloc, &nets, aim, &mut Silent)
}
