//! The tables of a flat net, model by model. The models that are being added stand on a stack, so that a
//! chain of uses costs memory and no depth of calls. Source: BLIF's `.subckt`.
ghost use Rattle.std.specs.Prelude.{◌≡◌, ℕ, ◌+◌, List, length, IfOk, OnOk};
ghost use Rattle.std.specs.List.{AllByRecursion};
ghost use Rattle.semantics.specs.Net.{TableValue};
ghost use Rattle.hierarchy_semantics.specs.Models.{subckt_part};
ghost use Rattle.hier_parts.specs.Driven.{driven_names};
ghost use Rattle.hier_flat.specs.Flattening.{IsFormedPart};
ghost use Rattle.hier_flat.specs.Plans.{IsUsePlan};
ghost use Rattle.hier_flat.specs.Visits.{with_visit_part, with_visit, with_visits, IsVisit};

use crate::flat_tables::{add_buffers, add_table};
use crate::frames::{frame_of, signals_at};
use crate::plans::{OutputPlan, PartPlan, Plan, Plans, UsePlan};
use net_core::items::{Signal, SignalList, TableList};
use std::alloc::{AllocError, Global};

/// A model, at one of its uses, whose flat tables are being added: its plan, the signals of the names that it
/// drives, its next part, over how many levels of models its parts stand, whether its tables have their own
/// names, the outputs that are bound at its use, and whether the buffers of these have their own names.
#[derive(Drop)]
pub struct Visit<'p, 'm, 'a> {
    pub plan: &'p Plan<'m, 'a>,
    pub signals: SignalList,
    pub next: usize,
    pub levels: usize,
    pub own: bool,
    pub outputs: &'p [OutputPlan<'a>],
    pub buffers_own: bool,
}

/// The signal of the next flat table, where the main model has `inputs` inputs.
fn first_signal(inputs: usize, tables: &TableList) -> Result<Signal, AllocError>
    ensures { IfOk result (λ s. s ≡ inputs + length tables.now) }
{
    let Some(first) = inputs.checked_add(tables.len()) else {
        return Err(AllocError);
    };
    if first >= 1 << 31 {
        return Err(AllocError);
    }
    Ok(first as u32)
}

/// The visit of a model at its use in the model of another visit, where its first flat table has the signal
/// `first`.
fn visit_inside<'p, 'm, 'a>(
    alloc: Global,
    plans: &'p Plans<'m, 'a>,
    visit: &Visit<'p, 'm, 'a>,
    u: &'p UsePlan<'m, 'a>,
    first: Signal,
) -> Result<Visit<'p, 'm, 'a>, AllocError>
    requires plan { IsUsePlan plans.now (driven_names plans.now visit.now.plan.now.model.now) u.now }
    requires formed { IsFormedPart (subckt_part u.now.subcircuit.now) }
    ensures is { IfOk result (λ w. IsVisit plans.now w) }
    ensures adds { IfOk result (λ w. (inputs : ℕ) (tables : List TableValue)
        → first ≡ inputs + length tables
        → with_visit plans.now inputs w tables
        ≡ with_visit_part plans.now inputs visit.now (subckt_part u.now.subcircuit.now) tables) }
{
    if visit.levels == 0 {
        return Err(AllocError);
    }
    let plan = plans.at(u.place);
    let Some(offsets) = &plan.offsets else {
        return Err(AllocError);
    };
    let inputs = signals_at(alloc, &visit.signals, &u.inputs)?;
    let signals = frame_of(inputs, offsets, first)?;
    Ok(Visit {
        plan,
        signals,
        next: 0,
        levels: visit.levels - 1,
        own: false,
        outputs: &u.outputs,
        buffers_own: visit.own,
    })
}

/// Adds the next part of a visit, and puts the visit back on the stack, below that of the model that the part
/// uses. Where no part is left, the visit ends with its buffers.
fn step<'p, 'm, 'a>(
    alloc: Global,
    tables: &mut TableList,
    stack: &mut Vec<Visit<'p, 'm, 'a>>,
    plans: &'p Plans<'m, 'a>,
    inputs: usize,
    mut visit: Visit<'p, 'm, 'a>,
) -> Result<(), AllocError>
    requires stack { AllByRecursion (IsVisit plans.now) stack.old.items }
    requires visit { IsVisit plans.now visit }
    ensures stack { OnOk result (AllByRecursion (IsVisit plans.now) stack.new.items) }
    ensures adds { OnOk result (with_visits plans.now inputs stack.new.items tables.new
        ≡ with_visits plans.now inputs stack.old.items
        (with_visit plans.now inputs visit.entry tables.old)) }
{
    let plan = visit.plan;
    if visit.next >= plan.parts.len() {
        return add_buffers(
            alloc,
            tables,
            visit.buffers_own,
            &visit.signals,
            visit.outputs,
        );
    }
    match &plan.parts[visit.next] {
        PartPlan::Table(t) => {
            add_table(alloc, tables, visit.own, &visit.signals, t)?;
            visit.next += 1;
            stack.push(visit)?;
        }
        PartPlan::Use(u) => {
            let first = first_signal(inputs, tables)?;
            let inside = visit_inside(alloc, plans, &visit, u, first)?;
            visit.next += 1;
            stack.push(visit)?;
            stack.push(inside)?;
        }
    }
    Ok(())
}

/// Adds all flat tables of a visit, where the main model has `inputs` inputs.
pub fn add_visit<'p, 'm, 'a>(
    alloc: Global,
    tables: &mut TableList,
    plans: &'p Plans<'m, 'a>,
    inputs: usize,
    visit: Visit<'p, 'm, 'a>,
) -> Result<(), AllocError>
    requires { IsVisit plans.now visit }
    ensures { OnOk result (tables.new ≡ with_visit plans.now inputs visit.entry tables.old) }
{
    let mut stack = Vec::new(alloc);
    stack.push(visit)?;
    for _turn in 0..u64::MAX {
        let Some(top) = stack.pop() else {
            return Ok(());
        };
        step(alloc, tables, &mut stack, plans, inputs, top)?;
    }
    Err(AllocError)
}
