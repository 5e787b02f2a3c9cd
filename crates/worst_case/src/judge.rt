//! What is held of one exact net while approximate nets are judged against it, and what each of the ways
//! answers by what is held: the known vectors, diagrams, every vector, the solver. `policy` says in which
//! order they are asked.
ghost use Rattle.std.specs.Prelude.{◌≡◌, ◌≤◌, ◌<◌, IfOk, IfSome};
ghost use Rattle.semantics.specs.Net.{input_count, IsSmall};
ghost use Rattle.level_answers.specs.Levels.{IsLevelAnswer, IsSureAnswer};
ghost use Rattle.graph_questions.specs.Levels.{IsChangeFor, asked_of};
ghost use Rattle.worst_case.specs.Levels.{IsAnsweredUpTo};
ghost use Rattle.worst_case.specs.Maximum.{IsGreatestUpTo};
ghost use Rattle.worst_case.specs.VectorsTried.{IsHeldFor};
ghost use Rattle.every_vector.specs.Vectors.{IsEachVectorHeldUpTo};

use crate::climbing::climb;
use crate::graph_question::by_graph;
use crate::margin::{by_diagrams, by_solver};
use crate::options::{
    LANE_INPUTS, MOST_INPUTS_WITHOUT, MOST_STARTS, MOST_TRIED_INPUTS, TABLES_A_STEP,
};
use crate::vectors_tried::hold_vectors;
use bdd_levels::budgets::QUESTION_STEPS;
use bdd_levels::decider::Decider;
use every_vector::vectors::{
    Attained, greatest_of, hold_each_vector, hold_every_vector, try_vectors,
};
use graph_questions::gap::Gap;
use lane_nets::reference::Reference;
use level_answers::margin::Margin;
use net_core::items::Bits;
use net_core::net::Net;
use net_errors::compared::Compared;
use net_search::judging::Change;
use progress::progress::Progress;
use proof_semantics::constraint::Constraint;
use semantics::metric::Metric;
use std::alloc::{AllocError, Global};
use std::marker::Model;

/// An exact net, and what is computed of it once.
#[derive(Drop)]
pub struct Judge<'a> {
    exact: &'a Net,
    /// The right outputs at the vectors that are tried first; with at most `LANE_INPUTS` inputs they are all.
    known: Reference<'a>,
    /// The diagrams.
    decider: Decider<'a>,
    /// The right outputs at every vector, in an order that is quick to walk, once they were needed; with more
    /// than `MOST_TRIED_INPUTS` inputs they are not held.
    every: Option<Reference<'a>>,
    /// The gap that is kept along a chain, once it was needed.
    gap: Option<Gap>,
    /// The vectors that were found last whose error exceeds a level.
    last: Vec<Bits>,
}

impl<'a> Model for Judge<'a> {
    ghost use Rattle.std.specs.Prelude.{◌≡◌, IfSome};
    ghost use Rattle.semantics.specs.Net.{NetValue};
    ghost use Rattle.worst_case.specs.VectorsTried.{IsHeldFor};
    ghost use Rattle.every_vector.specs.Vectors.{IsEachVectorHeld};
    ghost use Rattle.graph_questions.specs.Gaps.{IsGapOf};

    ghost Value = { NetValue };

    ghost view = { λ j. j.exact.now };

    ghost invariant = { λ j. IsHeldFor j.exact.now j.known × (j.decider ≡ j.exact.now)
        × IfSome j.every (IsEachVectorHeld j.exact.now) × IfSome j.gap (IsGapOf j.exact.now) };
}

/// The most steps of a question to diagrams: where every vector can be tried instead, as many as take about
/// as long as that.
fn question_steps(exact: &Net) -> u64 {
    let inputs = exact.inputs();
    if inputs > MOST_TRIED_INPUTS {
        return QUESTION_STEPS;
    }
    let blocks: u64 = (1 << inputs) / 512;
    let trial = blocks.saturating_mul(u64::from(exact.tables()));
    QUESTION_STEPS.min(trial / TABLES_A_STEP)
}

/// The decider by diagrams; it holds no diagrams where every vector is tried soon enough without them.
fn decider_for<'a>(alloc: Global, exact: &'a Net) -> Result<Decider<'a>, AllocError>
    ensures { IfOk result (λ d. d ≡ exact.now) }
{
    if exact.inputs() <= MOST_INPUTS_WITHOUT {
        return Ok(Decider::none(exact));
    }
    Decider::new(alloc, exact)
}

impl<'a> Judge<'a> {
    /// Makes what is needed from the beginning: the right outputs at the known vectors, and diagrams.
    pub fn new(alloc: Global, exact: &'a Net) -> Result<Judge<'a>, AllocError>
        requires { IsSmall exact.now }
        ensures { IfOk result (λ j. j ≡ exact.now) }
    {
        Ok(Judge {
            exact,
            known: hold_vectors(alloc, exact)?,
            decider: decider_for(alloc, exact)?,
            every: None,
            gap: None,
            last: Vec::new(alloc),
        })
    }

    /// The right outputs at the vectors that are tried first.
    pub(crate) fn known(&self) -> &Reference<'a>
        ensures { IsHeldFor self.now result.now }
    {
        &self.known
    }

    /// The right outputs at every vector, which are made if they are not held, where there are at most
    /// `MOST_TRIED_INPUTS` inputs.
    fn take_every(&mut self, alloc: Global) -> Result<Option<Reference<'a>>, AllocError>
        ensures same { self.new ≡ self.old }
        ensures every { IfOk result (IsEachVectorHeldUpTo MOST_TRIED_INPUTS self.old) }
    {
        match self.every.take() {
            Some(every) => Ok(Some(every)),
            None => hold_each_vector(alloc, self.exact, MOST_TRIED_INPUTS),
        }
    }

    /// The answer of the known vectors: one that exceeds the level or, with at most `LANE_INPUTS` inputs,
    /// that none does.
    pub(crate) fn by_known(
        &self,
        alloc: Global,
        nets: &Compared,
        aim: Constraint,
    ) -> Result<Option<Margin>, AllocError>
        requires judge { self.now ≡ nets.now.exact }
        ensures { IfOk result (IsAnsweredUpTo LANE_INPUTS aim nets.now.exact nets.now.approx) }
    {
        match try_vectors(alloc, nets, &self.known, aim)? {
            Some(x) => Ok(Some(Margin::Over(x))),
            None if nets.exact().inputs() <= LANE_INPUTS => Ok(Some(Margin::Within)),
            None => Ok(None),
        }
    }

    /// The answer of the diagrams, where they find one within the steps of a question.
    pub(crate) fn by_diagrams(
        &mut self,
        alloc: Global,
        nets: &Compared,
        aim: Constraint,
    ) -> Result<Option<Margin>, AllocError>
        requires judge { self.old ≡ nets.now.exact }
        ensures same { self.new ≡ self.old }
        ensures answer { IfOk result
            (λ found. IfSome found (IsSureAnswer aim nets.now.exact nets.now.approx)) }
    {
        by_diagrams(
            alloc,
            nets,
            &mut self.decider,
            aim,
            question_steps(self.exact),
        )
    }

    /// The answer of every vector, with at most `MOST_TRIED_INPUTS` inputs.
    #[tactic(auto, using(every_vector::proofs::Tried::within_each))]
    pub(crate) fn by_every_vector(
        &mut self,
        alloc: Global,
        nets: &Compared,
        aim: Constraint,
    ) -> Result<Option<Margin>, AllocError>
        requires judge { self.old ≡ nets.now.exact }
        ensures same { self.new ≡ self.old }
        ensures answer { IfOk result
            (IsAnsweredUpTo MOST_TRIED_INPUTS aim nets.now.exact nets.now.approx) }
    {
        let Some(every) = self.take_every(alloc)? else {
            return Ok(None);
        };
        let found = try_vectors(alloc, nets, &every, aim)?;
        self.every = Some(every);
        match found {
            Some(x) => Ok(Some(Margin::Over(x))),
            None => Ok(Some(Margin::Within)),
        }
    }

    /// A vector whose error exceeds the bound, near to one that was found before.
    pub(crate) fn by_climbing(
        &self,
        alloc: Global,
        nets: &Compared,
        aim: Constraint,
    ) -> Result<Option<Margin>, AllocError>
        ensures { IfOk result
            (λ found. IfSome found (IsSureAnswer aim nets.now.exact nets.now.approx)) }
    {
        for start in &self.last {
            if start.len() != nets.exact().inputs() as usize {
                continue;
            }
            let best = climb(alloc, nets, aim, start.as_slice())?;
            if best.error > aim.bound {
                return Ok(Some(Margin::Over(best.witness)));
            }
        }
        Ok(None)
    }

    /// Keeps the vector of an answer, in the place of the one that was kept first.
    pub(crate) fn keep(&mut self, alloc: Global, margin: &Margin) -> Result<(), AllocError>
        ensures { self.new ≡ self.old }
    {
        if let Margin::Over(x) = margin {
            if self.last.len() >= MOST_STARTS {
                self.last.swap_remove(0);
            }
            self.last.push(Bits::from_slice(alloc, x.as_slice())?)?;
        }
        Ok(())
    }

    /// The answer over a graph, as [`by_graph`] gives it.
    pub(crate) fn by_graph<P: Progress>(
        &mut self,
        alloc: Global,
        nets: &Compared,
        change: Option<&Change>,
        aim: Constraint,
        progress: &mut P,
    ) -> Result<Option<Margin>, AllocError>
        requires judge { self.old ≡ nets.now.exact }
        requires limit { 1 ≤ aim.limit }
        requires change { IfSome change (λ c. IsChangeFor (asked_of nets.now aim) c.now) }
        ensures same { self.new ≡ self.old }
        ensures answer { IfOk result
            (λ found. IfSome found (IsSureAnswer aim nets.now.exact nets.now.approx)) }
    {
        by_graph(alloc, nets, change, &mut self.gap, aim, progress)
    }

    /// The answer of the solver, as [`by_solver`] gives it.
    pub(crate) fn by_solver<P: Progress>(
        &mut self,
        alloc: Global,
        nets: &Compared,
        aim: Constraint,
        progress: &mut P,
    ) -> Result<Margin, AllocError>
        requires many_inputs { LANE_INPUTS < input_count nets.now.exact }
        requires judge { self.old ≡ nets.now.exact }
        requires limit { 1 ≤ aim.limit }
        ensures same { self.new ≡ self.old }
        ensures answer { IfOk result (IsLevelAnswer aim nets.now.exact nets.now.approx) }
    {
        by_solver(alloc, nets, &mut self.decider, aim, progress)
    }

    /// The greatest error of every vector, with at most `MOST_TRIED_INPUTS` inputs. The vectors are walked in
    /// counting order, since the first that has the error is wanted; what is held in another order is let go
    /// of before.
    pub(crate) fn greatest_of_every(
        &mut self,
        alloc: Global,
        nets: &Compared,
        metric: Metric,
    ) -> Result<Option<Attained>, AllocError>
        requires judge { self.old ≡ nets.now.exact }
        ensures same { self.new ≡ self.old }
        ensures greatest { IfOk result
            (IsGreatestUpTo MOST_TRIED_INPUTS metric nets.now.exact nets.now.approx) }
    {
        self.every = None;
        let Some(every) = hold_every_vector(alloc, self.exact, MOST_TRIED_INPUTS)? else {
            return Ok(None);
        };
        Ok(Some(greatest_of(alloc, nets, metric, &every)?))
    }
}
