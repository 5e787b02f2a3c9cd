//! The first allowed move of a member of the chain.
ghost use Rattle.std.specs.Prelude.{◌≡◌, ◌≤◌, ◌++◌, ◌∷◌, [], length, IfOk, OnOk};
ghost use Rattle.semantics.specs.Net.{input_count, IsSmall};
ghost use Rattle.semantics.specs.Error.{IsWithin};
ghost use Rattle.synth_core.specs.AllowedMoves.{IsPool, masks_over, IsMaskedPool, IsCandidateMove};
ghost use Rattle.synth_core.specs.AllowedMoves.{AreAmong, IsWeighed, IsScratchAfter, IsFound};

use crate::move_trial::try_move;
use crate::tester::Tester;
use crate::unbroken::next_unbroken;
use care_masks::growing::GrowingMasks;
use chain_semantics::moves::Move;
use lane_bits::patterns::Patterns;
use level_answers::margin::Margin;
use level_answers::query::Spent;
use net_core::net::Net;
use net_errors::compared::Compared;
use net_moves::moves::moves;
use net_search::judging::Judging;
use progress::progress::Progress;
use std::alloc::{AllocError, Global};

/// What is found out about the moves of a member of the chain.
#[derive(Drop)]
pub(crate) enum Found {
    /// No move is allowed.
    End,
    /// This is the member after its first allowed move.
    Moved(Net),
    /// A query was spent before an allowed move was found.
    Spent(Spent),
}

/// What is found out about one move.
#[derive(Drop)]
pub(crate) enum Weighed {
    /// A vector breaks the move.
    Refused,
    /// The move is allowed.
    Allowed,
    /// This query about the move was spent.
    Spent(Spent),
}

/// Of a member of the chain: its masks over the pool, and the copy of it in which its moves are tried.
#[derive(Drop)]
pub(crate) struct MemberTrials<'a> {
    pub(crate) masks: GrowingMasks<'a>,
    pub(crate) scratch: Net,
}

/// The masks of the approximate net over the pool.
fn pool_masks<'a, J: Drop>(
    alloc: Global,
    nets: &Compared<'a>,
    tester: &Tester<J>,
) -> Result<GrowingMasks<'a>, AllocError>
    requires inputs { tester.now.pool.inputs ≡ input_count nets.now.exact }
    ensures { IfOk result (λ m. m ≡ masks_over tester.now.aim nets.now tester.now.pool.vectors) }
{
    let mut masks = GrowingMasks::new(alloc, nets, tester.aim.metric, tester.aim.bound)?;
    masks.grow(&tester.pool)?;
    Ok(masks)
}

/// What the moves of the approximate net are tried with.
fn begin_trials<'a, J: Drop>(
    alloc: Global,
    nets: &Compared<'a>,
    tester: &Tester<J>,
) -> Result<MemberTrials<'a>, AllocError>
    requires pool { IsPool nets.now.exact tester.now.pool }
    ensures masked { IfOk result
        (λ trials. IsMaskedPool tester.now.aim nets.now tester.now.pool trials.masks) }
    ensures scratch { IfOk result (λ trials. trials.scratch ≡ nets.now.approx) }
{
    Ok(MemberTrials {
        masks: pool_masks(alloc, nets, tester)?,
        scratch: nets.approx().copy()?,
    })
}

/// A vector joins the pool, and the masks go over to it.
fn add_vector(pool: &mut Patterns, masks: &mut GrowingMasks, x: &[bool]) -> Result<(), AllocError>
    requires inputs { pool.old.inputs ≡ input_count masks.old.exact }
    requires over { masks.old.vectors ≡ pool.old.vectors }
    requires width { length x.now ≡ pool.old.inputs }
    ensures pool { OnOk result (pool.new ≡ record pool.old { vectors = pool.old.vectors ++ x.now ∷ [] }) }
    ensures masks { OnOk result (masks.new ≡ record masks.old { vectors = pool.new.vectors }) }
{
    pool.push(x)?;
    masks.grow(pool)
}

/// Tries a move that no vector of the pool breaks, in the copy of the approximate net. A vector that breaks
/// it joins the pool.
fn weigh<'a, J: Judging<'a>, P: Progress>(
    alloc: Global,
    nets: &Compared,
    tester: &mut Tester<J>,
    trials: &mut MemberTrials,
    candidate: Move,
    progress: &mut P,
) -> Result<Weighed, AllocError>
    requires judge { J.exact tester.old.judge ≡ nets.now.exact }
    requires limit { 1 ≤ tester.old.aim.limit }
    requires within { IsWithin tester.old.aim.metric nets.now.exact tester.old.aim.bound nets.now.approx }
    requires scratch { trials.old.scratch ≡ nets.now.approx }
    requires masked { IsMaskedPool tester.old.aim nets.now tester.old.pool trials.old.masks }
    requires unbroken { IsCandidateMove trials.old.masks candidate }
    ensures aim { tester.new.aim ≡ tester.old.aim }
    ensures judge { J.exact tester.new.judge ≡ J.exact tester.old.judge }
    ensures masked { IfOk result
        (λ _. IsMaskedPool tester.old.aim nets.now tester.new.pool trials.new.masks) }
    ensures among { IfOk result (λ _. AreAmong tester.old.pool.vectors tester.new.pool.vectors) }
    ensures weighed { IfOk result (IsWeighed tester.old.aim nets.now tester.new.pool.vectors candidate) }
    ensures scratch { IfOk result (IsScratchAfter nets.now.approx candidate trials.new.scratch) }
{
    match try_move(
        alloc,
        nets,
        tester,
        &mut trials.scratch,
        candidate,
        progress,
    )? {
        Margin::Over(x) => {
            add_vector(&mut tester.pool, &mut trials.masks, x.as_slice())?;
            Ok(Weighed::Refused)
        }
        Margin::Within => Ok(Weighed::Allowed),
        Margin::Spent(spent) => Ok(Weighed::Spent(spent)),
    }
}

/// Tries the moves of the approximate net in order, in a copy of it. Each vector that a query gives joins the
/// pool and the masks.
pub(crate) fn find_move<'a, J: Judging<'a>, P: Progress>(
    alloc: Global,
    nets: &Compared,
    tester: &mut Tester<J>,
    progress: &mut P,
) -> Result<Found, AllocError>
    requires judge { J.exact tester.old.judge ≡ nets.now.exact }
    requires small { IsSmall nets.now.approx }
    requires limit { 1 ≤ tester.old.aim.limit }
    requires within { IsWithin tester.old.aim.metric nets.now.exact tester.old.aim.bound nets.now.approx }
    requires pool { IsPool nets.now.exact tester.old.pool }
    ensures aim { tester.new.aim ≡ tester.old.aim }
    ensures judge { J.exact tester.new.judge ≡ J.exact tester.old.judge }
    ensures pool { IfOk result (λ _. IsPool nets.now.exact tester.new.pool) }
    ensures found { IfOk result (IsFound tester.old.aim nets.now tester.new.pool.vectors) }
{
    let mut moves = moves(alloc, nets.approx())?;
    let mut trials = begin_trials(alloc, nets, tester)?;
    let mut told = None;
    let tables = nets.approx().tables();
    while let Some(candidate) = next_unbroken(
        &mut moves,
        &mut trials.masks,
        tables,
        &mut told,
        progress,
    )? {
        match weigh(alloc, nets, tester, &mut trials, candidate, progress)? {
            Weighed::Refused => {}
            Weighed::Allowed => return Ok(Found::Moved(trials.scratch)),
            Weighed::Spent(spent) => return Ok(Found::Spent(spent)),
        }
    }
    Ok(Found::End)
}
