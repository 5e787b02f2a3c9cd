//! The sweep: before the search, signals that may be equal are shown to be equal, pair after pair.
//!
//! Two decisions say that the signals of a pair differ. The ordinary search goes on from there, and decides
//! only signals on which the two depend. What is learned from its conflicts stays: where the signals are
//! equal, in the end one decision rules the other out. Then the two decisions are tried in the other order,
//! and both orders with the values turned over. Where the two can differ as far as the signals on which they
//! depend are concerned, or where too many conflicts were spent, the pair is given up. Only clauses that were
//! learned from a conflict are added. Source: SAT sweeping, as in fraigs.
ghost use Rattle.std.specs.Prelude.{◌≡◌, ◌<◌, ◌^◌, IfSome};
ghost use Rattle.proof_semantics.specs.Clauses.{IsLiteralOf};
ghost use Rattle.cdcl_core.specs.Decided.{IsDecision};

use crate::cone::Cone;
use crate::decision::if_open;
use crate::decision_order::Order;
use crate::guide::{Candidate, Guide};
use crate::literal::Literal;
use crate::trail::Trail;
use net_parts::items::Signal;
use std::alloc::{AllocError, Global};

/// The most conflicts of a pair in each direction; and the most where its table reads a signal that is in
/// doubt.
const CONFLICTS: u64 = 50;

const DOUBTFUL_CONFLICTS: u64 = 5;

/// The conflicts before the sweep, where the search goes first.
const FIRST_CONFLICTS: u64 = 100;

/// The number of steps for each pair: two directions in two orders.
const STEPS: usize = 4;

/// The step; the conflicts before the sweep; the conflicts of this direction, the most that it may have, and
/// the most that all directions may have; the place in the order of the tables; and the signals that are in
/// doubt, since it is not known whether they equal an earlier one.
#[derive(Drop)]
pub struct Sweep {
    step: usize,
    waits: u64,
    spent: u64,
    most: u64,
    left: u64,
    at: usize,
    doubtful: Vec<bool>,
    cone: Cone,
}

/// The literal of a signal, where it has a variable.
fn of_signal(signal: Signal, value: bool, variables: u32) -> Option<Literal>
    requires { variables < 2 ^ 31 }
    ensures { IfSome result (IsLiteralOf variables) }
{
    if signal < variables {
        Some(Literal::of(signal + 1, value))
    } else {
        None
    }
}

/// The first of the two literals that is not true, if it is open.
fn first_open(trail: &Trail, one: Literal, other: Literal) -> Option<Literal>
    requires one { IsLiteralOf trail.now.variables one }
    requires other { IsLiteralOf trail.now.variables other }
    ensures { IfSome result (IsDecision trail.now) }
{
    if trail.is_true(one) {
        return if_open(trail, other);
    }
    if_open(trail, one)
}

/// Whether a table reads a signal that is in doubt.
fn reads_doubtful(doubtful: &[bool], pins: &[Signal]) -> bool {
    for pin in pins {
        let at = *pin as usize;
        if at < doubtful.len() && doubtful[at] {
            return true;
        }
    }
    false
}

/// Notes whether a signal is in doubt.
fn set_doubtful(doubtful: &mut Vec<bool>, signal: Signal, doubt: bool) {
    let at = signal as usize;
    if at < doubtful.len() {
        doubtful[at] = doubt;
    }
}

/// Goes through the order of the tables from a place to a signal: a table that reads a signal in doubt is in
/// doubt. Returns the place behind.
fn spread_doubt(doubtful: &mut Vec<bool>, guide: &Guide, from: usize, until: Signal) -> usize {
    for at in from..guide.order.len() {
        let signal = *guide.order.get(at);
        let doubt = reads_doubtful(doubtful, guide.pins_of(signal));
        set_doubtful(doubtful, signal, doubt);
        if signal == until {
            return at + 1;
        }
    }
    guide.order.len()
}

impl Sweep {
    /// A sweep over the guide's pairs, with a quarter of `limit` conflicts.
    pub fn new(alloc: Global, guide: &Guide, limit: u64) -> Result<Sweep, AllocError> {
        let mut sweep = Sweep {
            step: 0,
            waits: if guide.search_first {
                FIRST_CONFLICTS
            } else {
                0
            },
            spent: 0,
            most: CONFLICTS,
            left: limit / 4,
            at: 0,
            doubtful: vec![in alloc; false; guide.signals as usize]?,
            cone: Cone::new(alloc, guide.signals)?,
        };
        sweep.begin(guide)?;
        Ok(sweep)
    }

    /// The pair of this step.
    fn candidate(&self, guide: &Guide) -> Option<Candidate> {
        let pair = self.step / STEPS;
        if pair < guide.candidates.len() {
            Some(*guide.candidates.get(pair))
        } else {
            None
        }
    }

    /// Whether pairs are tried now.
    pub fn is_on(&self, guide: &Guide) -> bool {
        self.waits == 0 && self.left > 0 && self.step / STEPS < guide.candidates.len()
    }

    /// The number of steps.
    pub fn steps(&self, guide: &Guide) -> usize {
        guide.candidates.len().saturating_mul(STEPS)
    }

    /// Begins the first step of a pair.
    fn begin(&mut self, guide: &Guide) -> Result<(), AllocError> {
        self.spent = 0;
        let Some(
            Candidate {
                signal,
                earlier,
                ..
            },
        ) = self.candidate(guide)
        else {
            return Ok(());
        };
        self.at = spread_doubt(&mut self.doubtful, guide, self.at, signal);
        let doubt = reads_doubtful(&self.doubtful, guide.pins_of(signal));
        self.most = if doubt { DOUBTFUL_CONFLICTS } else { CONFLICTS };
        self.cone.set(guide, signal, earlier)
    }

    /// Ends a pair, whose signal may be in doubt.
    fn end_pair(&mut self, guide: &Guide, doubt: bool) -> Result<(), AllocError> {
        if let Some(Candidate { signal, .. }) = self.candidate(guide) {
            set_doubtful(&mut self.doubtful, signal, doubt);
        }
        self.step = (self.step / STEPS).saturating_add(1).saturating_mul(STEPS);
        self.begin(guide)
    }

    /// Goes on to the next step where one decision of this step rules the other out; else gives the pair up.
    pub fn go_on(&mut self, guide: &Guide, ruled_out: bool) -> Result<(), AllocError> {
        if !ruled_out || self.step % STEPS == STEPS - 1 {
            return self.end_pair(guide, !ruled_out);
        }
        self.step = self.step.saturating_add(1);
        if self.step % 2 == 0 {
            self.spent = 0;
        }
        Ok(())
    }

    /// The two literals that say that the pair differs, in the order of this step.
    fn literals(&self, guide: &Guide, variables: u32) -> Option<(Literal, Literal)>
        requires { variables < 2 ^ 31 }
        ensures { IfSome result (λ pair. IsLiteralOf variables pair.0 × IsLiteralOf variables pair.1) }
    {
        let Candidate {
            signal,
            earlier,
            opposite,
        } = self.candidate(guide)?;
        let turned = self.step % STEPS >= 2;
        let one = of_signal(signal, !turned, variables)?;
        let other = of_signal(earlier, turned != opposite, variables)?;
        if self.step % 2 == 0 {
            Some((one, other))
        } else {
            Some((other, one))
        }
    }

    /// What is decided next, so that the signals of the pair differ; None where one of the two literals is
    /// false, or all signals of the cone have values.
    pub fn decide(&self, trail: &Trail, order: &Order, guide: &Guide) -> Option<Literal>
        requires small { trail.now.variables < 2 ^ 31 }
        requires variables { order.now ≡ trail.now.variables }
        ensures { IfSome result (IsDecision trail.now) }
    {
        let (one, other) = self.literals(guide, trail.variables())?;
        match first_open(trail, one, other) {
            Some(literal) => Some(literal),
            None => {
                if trail.levels() > 0 && trail.is_true(one) && trail.is_true(other) {
                    self.cone.decide(trail, order)
                } else {
                    None
                }
            }
        }
    }

    /// Whether the entries rule out that the signals of the pair differ.
    pub fn is_ruled_out(&self, trail: &Trail, guide: &Guide) -> bool
        requires { trail.now.variables < 2 ^ 31 }
    {
        match self.literals(guide, trail.variables()) {
            Some((one, other)) => trail.is_false(one) || trail.is_false(other),
            None => false,
        }
    }

    /// Counts a conflict, and returns whether the decisions are given up.
    pub fn count(&mut self, guide: &Guide) -> Result<bool, AllocError> {
        if self.waits > 0 {
            self.waits -= 1;
            return Ok(self.waits == 0);
        }
        if !self.is_on(guide) {
            return Ok(false);
        }
        self.left = self.left.saturating_sub(1);
        self.spent = self.spent.saturating_add(1);
        if self.spent < self.most && self.left > 0 {
            return Ok(false);
        }
        self.end_pair(guide, true)?;
        Ok(true)
    }
}
