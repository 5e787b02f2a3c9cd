//! Whether the error of an approximate net exceeds a level, decided by diagrams that are kept over many
//! questions.
ghost use Rattle.std.specs.Prelude.{◌≡◌, ◌≤◌, length, IfOk, IfSome};
ghost use Rattle.semantics.specs.Net.{NetValue};
ghost use Rattle.semantics.specs.Error.{IsCandidate};
ghost use Rattle.bdd_levels.specs.Levels.{AreInputVariables, IsLevelDecided, IsLevelOf};

use crate::budgets::{GROWTH, MOST_OPEN_QUESTIONS, QUESTION_STEPS, SPARE_NODES, TRIAL_NODES};
use crate::drawn::Drawn;
use crate::level::Level;
use crate::orders::{HEURISTICS, Heuristic, input_variables};
use bdd_core::stop::Stop;
use bdd_nets::distinct::are_distinct;
use bdd_nets::ever_true::Decision;
use net_core::net::Net;
use semantics::limits::MOST_OUTPUTS;
use semantics::metric::Metric;
use std::alloc::{AllocError, Global};
use std::marker::Model;

/// An exact net, and its diagrams in the order of inputs that takes the fewest nodes, where they fit in some
/// order.
#[derive(Drop)]
pub struct Decider<'a> {
    exact: &'a Net,
    drawn: Option<Drawn<'a>>,
    /// The number of nodes of the exact net alone.
    first: usize,
    /// The level that was asked about last.
    level: Option<Level>,
    /// The number of questions that were left open, one after another.
    open_questions: u32,
}

impl<'a> Model for Decider<'a> {
    ghost use Rattle.std.specs.Prelude.{◌≡◌, IfSome};
    ghost use Rattle.semantics.specs.Net.{NetValue};
    ghost use Rattle.bdd_levels.specs.Levels.{IsLevelOf};

    ghost Value = { NetValue };

    ghost view = { λ d. d.exact.now };

    ghost invariant = { λ d. IfSome d.drawn (λ e. e ≡ d.exact.now) × IfSome d.level (IsLevelOf d.exact.now) };
}

/// The net's diagrams where its inputs have these variables, if the diagrams take fewer than `nodes` nodes.
fn try_order<'a>(
    alloc: Global,
    exact: &'a Net,
    variables: Vec<u32>,
    nodes: u32,
) -> Result<Option<Drawn<'a>>, AllocError>
    ensures { IfOk result (λ found. IfSome found (λ d. d ≡ exact.now)) }
{
    if variables.len() != exact.inputs() as usize || !are_distinct(&variables) {
        return Ok(None);
    }
    match Drawn::new(alloc, exact, variables, nodes) {
        Ok(drawn) => Ok(Some(drawn)),
        Err(Stop::Spent) => Ok(None),
        Err(Stop::OutOfMemory) => Err(AllocError),
    }
}

/// The net's diagrams in the order of this heuristic, if they take fewer than `nodes` nodes.
fn try_heuristic<'a>(
    alloc: Global,
    exact: &'a Net,
    heuristic: Heuristic,
    nodes: u32,
) -> Result<Option<Drawn<'a>>, AllocError>
    ensures { IfOk result (λ found. IfSome found (λ d. d ≡ exact.now)) }
{
    let variables = input_variables(alloc, exact, heuristic)?;
    try_order(alloc, exact, variables, nodes)
}

/// The diagrams that were found last or, where none were, the best ones before; with the number of nodes
/// below which the next ones must be.
fn better<'a>(
    best: Option<Drawn<'a>>,
    least: u32,
    found: Option<Drawn<'a>>,
) -> (Option<Drawn<'a>>, u32)
    ensures { (N : NetValue) → IfSome best.entry (λ d. d ≡ N) → IfSome found.entry (λ d. d ≡ N)
        → IfSome result.0 (λ d. d ≡ N) }
{
    match found {
        Some(drawn) => {
            let nodes = (least as usize).min(drawn.nodes()) as u32;
            (Some(drawn), nodes)
        }
        None => (best, least),
    }
}

/// The net's diagrams in the order that takes the fewest nodes, if they take fewer than `nodes` nodes.
fn best_order<'a>(
    alloc: Global,
    exact: &'a Net,
    nodes: u32,
) -> Result<Option<Drawn<'a>>, AllocError>
    ensures { IfOk result (λ found. IfSome found (λ d. d ≡ exact.now)) }
{
    let mut best = None;
    let mut least = nodes;
    for heuristic in HEURISTICS.iter() {
        let found = try_heuristic(alloc, exact, *heuristic, least)?;
        let (kept, nodes) = better(best, least, found);
        best = kept;
        least = nodes;
    }
    Ok(best)
}

/// Begins anew with the diagrams of the exact net, which take `nodes` nodes, and forgets all others. Returns
/// whether the diagrams were made within their budget; if not, all diagrams stay.
fn begin_anew(alloc: Global, drawn: &mut Drawn, nodes: usize) -> Result<bool, AllocError>
    ensures { drawn.new ≡ drawn.old }
{
    match drawn.renew(alloc, nodes) {
        Ok(()) => Ok(true),
        Err(Stop::Spent) => Ok(false),
        Err(Stop::OutOfMemory) => Err(AllocError),
    }
}

impl<'a> Decider<'a> {
    /// Without diagrams, for nets that are decided by other means.
    pub fn none(exact: &'a Net) -> Decider<'a>
        ensures { result ≡ exact.now }
    {
        Decider {
            exact,
            drawn: None,
            first: 0,
            level: None,
            open_questions: 0,
        }
    }

    /// With these diagrams, which are made anew with more room.
    fn with(alloc: Global, exact: &'a Net, mut drawn: Drawn<'a>) -> Result<Decider<'a>, AllocError>
        requires { drawn ≡ exact.now }
        ensures { IfOk result (λ d. d ≡ exact.now) }
    {
        let first = drawn.nodes();
        begin_anew(alloc, &mut drawn, first)?;
        Ok(Decider {
            exact,
            drawn: Some(drawn),
            first,
            level: None,
            open_questions: 0,
        })
    }

    /// Looks for an order of the net's inputs in which its diagrams are small.
    pub fn new(alloc: Global, exact: &'a Net) -> Result<Decider<'a>, AllocError>
        ensures { IfOk result (λ d. d ≡ exact.now) }
    {
        for nodes in TRIAL_NODES.iter() {
            if let Some(drawn) = best_order(alloc, exact, *nodes)? {
                return Decider::with(alloc, exact, drawn);
            }
        }
        Ok(Decider::none(exact))
    }

    /// The network of a level: that of the last question, if the level is the same.
    fn take_level(&mut self, alloc: Global, metric: Metric, k: u128) -> Result<Level, AllocError>
        requires { length self.old.outputs ≤ MOST_OUTPUTS }
        ensures same { self.new ≡ self.old }
        ensures metric { IfOk result (λ level. level.metric ≡ metric) }
        ensures k { IfOk result (λ level. level.k ≡ k) }
        ensures level { IfOk result (IsLevelOf self.old) }
    {
        if let Some(level) = self.level.take() {
            if level.metric == metric && level.k == k {
                return Ok(level);
            }
        }
        Level::new(alloc, self.exact, metric, k)
    }

    /// Counts the questions that were left open, one after another.
    fn count_open(&mut self, decision: &Decision)
        ensures { self.new ≡ self.old }
    {
        self.open_questions = match decision {
            Decision::Unknown => self.open_questions.saturating_add(1),
            _ => 0,
        };
    }

    /// Whether the error of an approximate net exceeds `k`, decided within `steps` steps. After
    /// `MOST_OPEN_QUESTIONS` questions that were left open, one after another, only a question that may take
    /// more than `QUESTION_STEPS` steps is tried.
    pub fn decide(
        &mut self,
        alloc: Global,
        approx: &Net,
        metric: Metric,
        k: u128,
        steps: u64,
    ) -> Result<Decision, AllocError>
        requires candidate { IsCandidate self.old approx.now }
        ensures same { self.new ≡ self.old }
        ensures decided { IfOk result (IsLevelDecided metric self.old approx.now k) }
    {
        if self.is_hopeless(steps) {
            return Ok(Decision::Unknown);
        }
        self.ask(alloc, approx, metric, k, steps)
    }

    /// Whether a question of `steps` steps is not tried.
    fn is_hopeless(&self, steps: u64) -> bool {
        let hopeless = self.open_questions >= MOST_OPEN_QUESTIONS && steps <= QUESTION_STEPS;
        self.drawn.is_none() || hopeless
    }

    /// Answers a question that is tried: makes the network of its level, unless it is that of the last
    /// question.
    fn ask(
        &mut self,
        alloc: Global,
        approx: &Net,
        metric: Metric,
        k: u128,
        steps: u64,
    ) -> Result<Decision, AllocError>
        requires candidate { IsCandidate self.old approx.now }
        ensures same { self.new ≡ self.old }
        ensures decided { IfOk result (IsLevelDecided metric self.old approx.now k) }
    {
        let level = self.take_level(alloc, metric, k)?;
        let decision = self.decide_counted(alloc, approx, &level, steps)?;
        self.level = Some(level);
        Ok(decision)
    }

    /// Answers a question with the network of its level, as [`Decider::decide_level`] does, and counts
    /// whether the question was left open.
    fn decide_counted(
        &mut self,
        alloc: Global,
        approx: &Net,
        level: &Level,
        steps: u64,
    ) -> Result<Decision, AllocError>
        requires candidate { IsCandidate self.old approx.now }
        requires level { IsLevelOf self.old level.now }
        ensures same { self.new ≡ self.old }
        ensures decided { IfOk result (IsLevelDecided level.now.metric self.old approx.now level.now.k) }
    {
        let decision = self.decide_level(alloc, approx, level, steps)?;
        self.count_open(&decision);
        Ok(decision)
    }

    /// Answers a question with the network of its level. Diagrams that have become many are made anew before.
    fn decide_level(
        &mut self,
        alloc: Global,
        approx: &Net,
        level: &Level,
        steps: u64,
    ) -> Result<Decision, AllocError>
        requires candidate { IsCandidate self.old approx.now }
        requires level { IsLevelOf self.old level.now }
        ensures same { self.new ≡ self.old }
        ensures decided { IfOk result (IsLevelDecided level.now.metric self.old approx.now level.now.k) }
    {
        let most = self
            .first
            .saturating_mul(GROWTH)
            .saturating_add(SPARE_NODES);
        let Some(drawn) = &mut self.drawn else {
            return Ok(Decision::Unknown);
        };
        if drawn.nodes() > most && !begin_anew(alloc, drawn, self.first)? {
            return Ok(Decision::Unknown);
        }
        drawn.decide(alloc, approx, level, steps)
    }
}
