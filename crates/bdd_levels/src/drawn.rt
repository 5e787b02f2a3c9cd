//! The diagrams of an exact net's outputs and, over the same nodes, the diagrams of approximate nets and of
//! their errors.
ghost use Rattle.std.specs.Prelude.{◌≡◌, ◌<◌, ◌++◌, length, All, IfOk};
ghost use Rattle.semantics.specs.Net.{input_count};
ghost use Rattle.semantics.specs.Error.{IsCandidate};
ghost use Rattle.bdd_core.specs.Diagrams.{Grows};
ghost use Rattle.bdd_nets.specs.Signals.{AreVariablesOf, AreOutputsOf};
ghost use Rattle.bdd_levels.specs.Levels.{IsOverOf, AreDrawn, AreInputVariables, IsLevelDecided, IsLevelOf};

use crate::budgets::{FEW_REMEMBERED, MOST_NODES, allowed, remembered};
use crate::level::Level;
use bdd_core::diagrams::{Allowed, Diagrams};
use bdd_core::node::Diagram;
use bdd_core::stop::Stop;
use bdd_nets::ever_true::{Decision, decide_diagram};
use bdd_nets::nets::{output_diagrams, variable_diagrams};
use net_core::net::Net;
use net_errors::compared::Compared;
use std::alloc::{AllocError, Global};
use std::marker::Model;

/// The diagrams of a net's inputs and outputs.
#[derive(Drop)]
struct Drawing {
    diagrams: Diagrams,
    inputs: Vec<Diagram>,
    outputs: Vec<Diagram>,
}

/// The diagrams of a net's inputs, which have these variables, and the diagrams of its outputs.
fn draw(alloc: Global, net: &Net, variables: &[u32], allowed: Allowed) -> Result<Drawing, Stop>
    requires count { length variables.now ≡ input_count net.now }
    requires remembered { 0 < allowed.remembered }
    ensures { IfOk result (λ p. AreDrawn net.now variables.now p.diagrams p.inputs.items p.outputs.items) }
{
    let mut diagrams = Diagrams::new(alloc, allowed)?;
    let inputs = variable_diagrams(alloc, &mut diagrams, variables)?;
    let outputs = output_diagrams(alloc, &mut diagrams, net, &inputs)?;
    Ok(Drawing {
        diagrams,
        inputs,
        outputs,
    })
}

/// Both words, one behind the other.
fn joined(alloc: Global, first: &[Diagram], second: &[Diagram]) -> Result<Vec<Diagram>, AllocError>
    ensures { IfOk result (λ both. both.items ≡ first.now ++ second.now) }
{
    let mut both = first.to_vec(alloc)?;
    both.extend_from_slice(second)?;
    Ok(both)
}

/// The diagram that says whether the error of the approximate net exceeds the level.
fn over_diagram(
    alloc: Global,
    d: &mut Diagrams,
    nets: &Compared,
    level: &Level,
    inputs: &[Diagram],
    outputs: &[Diagram],
) -> Result<Diagram, Stop>
    requires level { IsLevelOf nets.now.exact level.now }
    requires count { length inputs.now ≡ input_count nets.now.exact }
    requires within { All (λ f. f < length d.old) inputs.now }
    requires outputs { AreOutputsOf d.old nets.now.exact inputs.now outputs.now }
    ensures grows { Grows d.old d.new }
    ensures ok { IfOk result (IsOverOf d.new nets.now level.now inputs.now) }
{
    let approximate = output_diagrams(alloc, d, nets.approx(), inputs)?;
    let both = joined(alloc, outputs, &approximate)?;
    let over = output_diagrams(alloc, d, &level.network, &both)?;
    Ok(over[0])
}

/// Whether the error of the approximate net exceeds the level, decided within `steps` steps.
fn decide_drawn(
    alloc: Global,
    drawing: &mut Drawing,
    nets: &Compared,
    level: &Level,
    variables: &[u32],
    steps: u64,
) -> Result<Decision, AllocError>
    requires level { IsLevelOf nets.now.exact level.now }
    requires own { AreInputVariables nets.now.exact variables.now }
    requires drawn { AreDrawn nets.now.exact variables.now drawing.old.diagrams drawing.old.inputs.items
        drawing.old.outputs.items }
    ensures drawn { AreDrawn nets.now.exact variables.now drawing.new.diagrams drawing.new.inputs.items
        drawing.new.outputs.items }
    ensures decided { IfOk result
        (IsLevelDecided level.now.metric nets.now.exact nets.now.approx level.now.k) }
{
    drawing.diagrams.allow_nodes(MOST_NODES);
    drawing.diagrams.allow_steps(steps);
    let over = over_diagram(
        alloc,
        &mut drawing.diagrams,
        nets,
        level,
        &drawing.inputs,
        &drawing.outputs,
    );
    match over {
        Ok(f) => {
            drawing.diagrams.values();
            let levels = nets.exact().inputs();
            decide_diagram(alloc, &drawing.diagrams, f, variables, levels)
        }
        Err(Stop::Spent) => Ok(Decision::Unknown),
        Err(Stop::OutOfMemory) => Err(AllocError),
    }
}

/// An exact net, and its diagrams in one order of its inputs.
#[derive(Drop)]
pub(crate) struct Drawn<'a> {
    exact: &'a Net,
    variables: Vec<u32>,
    drawing: Drawing,
}

impl<'a> Model for Drawn<'a> {
    ghost use Rattle.semantics.specs.Net.{NetValue};
    ghost use Rattle.bdd_levels.specs.Levels.{AreDrawn, AreInputVariables};

    ghost Value = { NetValue };

    ghost view = { λ d. d.exact.now };

    ghost invariant = { λ d. AreInputVariables d.exact.now d.variables.items
        × AreDrawn d.exact.now d.variables.items d.drawing.diagrams d.drawing.inputs.items
        d.drawing.outputs.items };
}

impl<'a> Drawn<'a> {
    /// The net's diagrams, where its inputs have these variables; few results are remembered while they are
    /// made.
    pub(crate) fn new(
        alloc: Global,
        exact: &'a Net,
        variables: Vec<u32>,
        nodes: u32,
    ) -> Result<Drawn<'a>, Stop>
        requires { AreInputVariables exact.now variables.items }
        ensures { IfOk result (λ d. d ≡ exact.now) }
    {
        let levels = exact.inputs();
        let drawing = draw(
            alloc,
            exact,
            &variables,
            allowed(nodes, levels, FEW_REMEMBERED),
        )?;
        Ok(Drawn {
            exact,
            variables,
            drawing,
        })
    }

    /// How many nodes there are.
    pub(crate) fn nodes(&self) -> usize {
        self.drawing.diagrams.len()
    }

    /// Begins anew with the diagrams of the exact net, which take `nodes` nodes, and forgets all others.
    pub(crate) fn renew(&mut self, alloc: Global, nodes: usize) -> Result<(), Stop>
        ensures { self.new ≡ self.old }
    {
        let levels = self.exact.inputs();
        let most = allowed(MOST_NODES, levels, remembered(nodes));
        self.drawing = draw(alloc, self.exact, &self.variables, most)?;
        Ok(())
    }

    /// Whether the error of an approximate net exceeds the level, decided within `steps` steps.
    pub(crate) fn decide(
        &mut self,
        alloc: Global,
        approx: &Net,
        level: &Level,
        steps: u64,
    ) -> Result<Decision, AllocError>
        requires candidate { IsCandidate self.old approx.now }
        requires level { IsLevelOf self.old level.now }
        ensures same { self.new ≡ self.old }
        ensures decided { IfOk result (IsLevelDecided level.now.metric self.old approx.now level.now.k) }
    {
        let nets = Compared::new(self.exact, approx);
        decide_drawn(
            alloc,
            &mut self.drawing,
            &nets,
            level,
            &self.variables,
            steps,
        )
    }
}
