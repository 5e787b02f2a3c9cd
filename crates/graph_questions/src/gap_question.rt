//! The question whether the error exceeds a level, by the gap that is kept along the chain.
//!
//! It is about the literals of the gap alone. Where the solver finds none that is beyond the level, and the
//! change makes no error that is too large, the error does not exceed it, and the gap goes on to the net
//! behind the change.
ghost use Rattle.std.specs.Prelude.{◌≡◌, ◌-◌, ◌^◌, ◌<◌, ◌≤◌, length, All, IfOk, IfSome, IsTrue};
ghost use Rattle.semantics.specs.Error.{IsWithin};
ghost use Rattle.semantics.specs.Net.{NetValue, HasSamePorts, input_count};
ghost use Rattle.aig_core.specs.Graph.{IsLiteralOf};
ghost use Rattle.aig_core.specs.Grown.{Grows};
ghost use Rattle.bdd_levels.specs.Levels.{IsLevelDecided};
ghost use Rattle.graph_questions.specs.Levels.{IsChangeFor, question_of};
ghost use Rattle.graph_questions.specs.LowPlaces.{AreEnough, IsDistance};
ghost use Rattle.graph_questions.specs.Gaps.{GapValue, IsBeyond, IsBetween, IsGapGoal};
ghost use Rattle.graph_questions.specs.Gaps.{IsGapOf, IsNextOf, IsStep};

use crate::difference::difference;
use crate::gap::Gap;
use crate::gap_steps::{Step, WEIGHT_PLACES, low_literals, step_of, weight_of};
use crate::goal::joined;
use crate::levels::tried;
use crate::low_places::{apart_literal, power_of_two};
use crate::nearness::{is_distance, is_small_change, least_places};
use crate::question::ask_solver;
use aig_core::graph::Aig;
use aig_core::literal::{Literal, constant, opposite};
use aig_core::nets::signal_literals;
use bdd_levels::level::Level;
use bdd_nets::ever_true::Decision;
use cdcl_core::answer::Answer;
use literal_sums::effect::{Changed, Words, effect_of};
use literal_sums::sum::Sum;
use literal_sums::term::Term;
use literal_sums::word::word_of;
use net_core::net::Net;
use net_errors::compared::Compared;
use net_search::judging::Change;
use progress::progress::Progress;
use std::alloc::{AllocError, Global};

/// How many places are looked at besides the least number of them: with more, the question whether a change
/// makes too large an error is easier.
const MORE_PLACES: u32 = 1;

/// The most places of a gap.
const MOST_PLACES: u32 = 31;

/// How many low places a gap looks at for a level, where there are enough outputs and the error is a
/// distance.
pub(crate) fn gap_places(level: &Level, outputs: u32) -> Option<u32>
    requires { outputs ≤ 64 }
    ensures { IfSome result (λ p. (2 ≤ p) × (p < outputs) × (p ≤ 31) × (level.now.k < 2 ^ (p - 2))
        × IsDistance level.now.metric) }
{
    if !is_distance(level.metric) {
        return None;
    }
    let Some(least) = least_places(level.k, outputs) else {
        return None;
    };
    if least > MOST_PLACES {
        return None;
    }
    Some((least + MORE_PLACES).min(outputs - 1).min(MOST_PLACES))
}

/// The literal that is true where a sum is beyond a level, or none where the sum is no word of so many
/// places.
fn beyond_literal(
    alloc: Global,
    g: &mut Aig,
    sum: &Sum,
    places: u32,
    k: u128,
) -> Result<Option<Literal>, AllocError>
    requires some { 1 ≤ places }
    requires few { places ≤ 31 }
    requires fits { k < 2 ^ places }
    ensures grows { Grows g.old g.new }
    ensures beyond { IfOk result (λ found. IfSome found (IsBeyond g.new places k sum.now)) }
{
    let Some(word) = word_of(alloc, g, sum, WEIGHT_PLACES - places)? else {
        return Ok(None);
    };
    let zeros = vec![in alloc; constant(false); places as usize]?;
    let both = joined(alloc, &word, &zeros)?;
    let beyond = apart_literal(alloc, g, &both, places, k)?;
    let around = apart_literal(alloc, g, &both, places, power_of_two(places) - 1 - k)?;
    Ok(Some(g.and(beyond, opposite(around))?))
}

/// The literal that is true where a sum is beyond a level and a change makes a difference, or none where the
/// sum is no word of so many places.
fn gap_goal(
    alloc: Global,
    g: &mut Aig,
    nets: &Compared,
    change: &Change,
    level: &Level,
    sum: &Sum,
    places: u32,
    inputs: &[Literal],
) -> Result<Option<Literal>, AllocError>
    requires some { 1 ≤ places }
    requires few { places ≤ 31 }
    requires fits { level.now.k < 2 ^ places }
    requires count { length inputs.now ≡ input_count nets.now.exact }
    requires within { All (IsLiteralOf g.old) inputs.now }
    requires change { IsChangeFor (question_of nets.now level.now) change.now }
    requires between { IsBetween g.old nets.now places inputs.now sum.now }
    ensures grows { Grows g.old g.new }
    ensures goal { IfOk result (λ found. IfSome found
        (IsGapGoal g.new (question_of nets.now level.now) places inputs.now)) }
{
    nets.exact();
    let Some(beyond) = beyond_literal(alloc, g, sum, places, level.k)? else {
        return Ok(None);
    };
    let differs = difference(alloc, g, change, nets.approx(), inputs)?;
    Ok(Some(g.and(beyond, differs)?))
}

/// The literals of a net's lowest outputs, and what the exact word counts more.
#[derive(Drop)]
struct Next {
    low: Vec<Literal>,
    sum: Sum,
    is_guess: bool,
}

impl Gap {
    /// Takes a net of which these are the lowest outputs as the member, and says whether these are shown to
    /// be what the last member's are.
    fn catch_up<P: Progress>(
        &mut self,
        alloc: Global,
        low: &[Literal],
        progress: &mut P,
    ) -> Result<bool, AllocError>
        requires some { 1 ≤ self.old.places }
        requires few { self.old.places ≤ 31 }
        ensures gap { IfOk result (λ _. (N : NetValue) → IsGapOf N self.old → IsGapOf N self.new) }
        ensures same { IfOk result (λ _. (self.new.places ≡ self.old.places)
            × (self.new.inputs ≡ self.old.inputs)) }
        ensures grows { Grows self.old.graph self.new.graph }
        ensures member { IfOk result (λ _. self.new.member_low ≡ low.now) }
    {
        if self.member_low.as_slice() == low {
            return Ok(true);
        }
        let step = step_of(
            alloc,
            &mut self.graph,
            &mut self.adders,
            &self.member_low,
            low,
            self.places,
            &[],
            progress,
        )?;
        self.is_lost |= !step.is_guess;
        self.sum.add_all(step.sum.terms())?;
        self.member_low = low.to_vec(alloc)?;
        Ok(step.is_guess)
    }

    /// The terms by which the difference of a change is guessed; no statement rests on them.
    fn guess(
        &mut self,
        alloc: Global,
        change: &Change,
        after: &Net,
        low: &[Literal],
    ) -> Result<Vec<Term>, AllocError>
        requires before_count { length self.old.inputs ≡ input_count change.now.before.now }
        requires after_count { length self.old.inputs ≡ input_count after.now }
        requires within { All (IsLiteralOf self.old.graph) self.old.inputs }
        requires some { 1 ≤ self.old.places }
        requires few { self.old.places ≤ 31 }
        ensures grows { Grows self.old.graph self.new.graph }
        ensures same { self.new ≡ record self.old { graph = self.new.graph } }
    {
        let before = signal_literals(alloc, &mut self.graph, change.before, &self.inputs)?;
        let behind = signal_literals(alloc, &mut self.graph, after, &self.inputs)?;
        self.samples.extend(&self.graph)?;
        let changed = Changed {
            after,
            signal: change.signal,
            before: &before,
            behind: &behind,
        };
        let words = Words {
            before: &self.member_low,
            behind: low,
            weight: weight_of(self.places),
        };
        let found = effect_of(alloc, &self.samples, &changed, &words)?;
        match found {
            Some(terms) => Ok(terms),
            None => Ok(Vec::new(alloc)),
        }
    }

    /// What the exact word counts more than a word of these literals, by the guess of a change.
    fn next_sum<P: Progress>(
        &mut self,
        alloc: Global,
        low: &[Literal],
        guess: &[Term],
        progress: &mut P,
    ) -> Result<Step, AllocError>
        requires some { 1 ≤ self.old.places }
        requires few { self.old.places ≤ 31 }
        requires step { IsStep
            self.old.graph self.old.places self.old.exact_low self.old.member_low self.old.sum }
        ensures grows { Grows self.old.graph self.new.graph }
        ensures same { self.new ≡ record self.old { graph = self.new.graph } }
        ensures step { IfOk result
            (λ step. IsStep self.new.graph self.old.places self.old.exact_low low.now step.sum) }
    {
        let step = step_of(
            alloc,
            &mut self.graph,
            &mut self.adders,
            &self.member_low,
            low,
            self.places,
            guess,
            progress,
        )?;
        let mut next = self.sum.copy(alloc)?;
        next.add_all(step.sum.terms())?;
        Ok(Step {
            sum: next,
            is_guess: step.is_guess,
        })
    }

    /// What is kept if a change is made, with the net before it as the member.
    fn next<P: Progress>(
        &mut self,
        alloc: Global,
        nets: &Compared,
        change: &Change,
        progress: &mut P,
    ) -> Result<Next, AllocError>
        requires gap { IsGapOf nets.now.exact self.old }
        requires ports { HasSamePorts change.now.before.now nets.now.approx }
        requires some { 1 ≤ self.old.places }
        ensures gap { IfOk result (λ _. IsGapOf nets.now.exact self.new) }
        ensures places { IfOk result (λ _. self.new.places ≡ self.old.places) }
        ensures next { IfOk result (λ next. IsNextOf self.new nets.now.approx next.low.items next.sum) }
    {
        nets.exact();
        let before = low_literals(
            alloc,
            &mut self.graph,
            change.before,
            self.places,
            &self.inputs,
        )?;
        let caught = self.catch_up(alloc, &before, progress)?;
        let low = low_literals(
            alloc,
            &mut self.graph,
            nets.approx(),
            self.places,
            &self.inputs,
        )?;
        let guess = self.guess(alloc, change, nets.approx(), &low)?;
        let step = self.next_sum(alloc, &low, &guess, progress)?;
        Ok(Next {
            low,
            sum: step.sum,
            is_guess: caught && step.is_guess,
        })
    }

    /// Goes on to the net behind a change that makes no error that is too large.
    fn go_on<P: Progress>(
        &mut self,
        alloc: Global,
        nets: &Compared,
        change: &Change,
        level: &Level,
        next: Next,
        limit: u64,
        progress: &mut P,
    ) -> Result<Decision, AllocError>
        requires limit { 1 ≤ limit }
        requires gap { IsGapOf nets.now.exact self.old }
        requires change { IsChangeFor (question_of nets.now level.now) change.now }
        requires ports { HasSamePorts change.now.before.now nets.now.approx }
        requires distance { IsDistance level.now.metric }
        requires some { 2 ≤ self.old.places }
        requires spared { self.old.places < length nets.now.exact.outputs }
        requires fits { level.now.k < 2 ^ (self.old.places - 2) }
        requires next { IsNextOf self.old nets.now.approx next.low.items next.sum }
        requires kept { AreEnough (question_of nets.now level.now) self.old.places
            → IsWithin level.now.metric nets.now.exact level.now.k nets.now.approx }
        ensures gap { IfOk result (λ _. IsGapOf nets.now.exact self.new) }
        ensures answer { IfOk result
            (IsLevelDecided level.now.metric nets.now.exact nets.now.approx level.now.k) }
    {
        if !is_small_change(alloc, nets, change, level, self.places, limit, progress)? {
            return Ok(Decision::Unknown);
        }
        self.sum = next.sum;
        self.member_low = next.low;
        Ok(Decision::Never)
    }

    /// Whether the error of a net behind a change exceeds the level, or neither where that is not found out.
    pub(crate) fn decide<P: Progress>(
        &mut self,
        alloc: Global,
        nets: &Compared,
        change: &Change,
        level: &Level,
        limit: u64,
        progress: &mut P,
    ) -> Result<Decision, AllocError>
        requires limit { 1 ≤ limit }
        requires gap { IsGapOf nets.now.exact self.old }
        requires change { IsChangeFor (question_of nets.now level.now) change.now }
        requires ports { HasSamePorts change.now.before.now nets.now.approx }
        requires distance { IsDistance level.now.metric }
        requires some { 2 ≤ self.old.places }
        requires spared { self.old.places < length nets.now.exact.outputs }
        requires fits { level.now.k < 2 ^ (self.old.places - 2) }
        ensures gap { IfOk result (λ _. IsGapOf nets.now.exact self.new) }
        ensures answer { IfOk result
            (IsLevelDecided level.now.metric nets.now.exact nets.now.approx level.now.k) }
    {
        let next = self.next(alloc, nets, change, progress)?;
        if !next.is_guess {
            return Ok(Decision::Unknown);
        }
        let (g, inputs) = (&mut self.graph, &self.inputs);
        let Some(goal) = gap_goal(
            alloc,
            g,
            nets,
            change,
            level,
            &next.sum,
            self.places,
            inputs,
        )?
        else {
            return Ok(Decision::Unknown);
        };
        self.graph.values();
        match ask_solver(alloc, &self.graph, goal, limit, progress)? {
            Answer::Model(model) => Ok(tried(alloc, nets, level, &model)?),
            Answer::Spent(_) => Ok(Decision::Unknown),
            Answer::Refuted(_) => self.go_on(alloc, nets, change, level, next, limit, progress),
        }
    }
}
