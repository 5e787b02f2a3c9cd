//! The signals of the names in a model, at one of its uses.
ghost use Rattle.std.specs.Prelude.{◌≡◌, ◌+◌, ◌<◌, ◌≤◌, ◌^◌, ◌++◌, IfOk, None, length, map, filter, sum_by};
ghost use Rattle.std.specs.List.{range_with_len};
ghost use Rattle.semantics.specs.Refusals.{has_name};
ghost use Rattle.hierarchy_semantics.specs.Models.{model_named};
ghost use Rattle.hier_parts.specs.Sections.{part_value};
ghost use Rattle.hier_parts.specs.Users.{IsModelOrder};
ghost use Rattle.hier_flat.specs.Weights.{capped};
ghost use Rattle.hier_flat.specs.Flattening.{size_of, part_size, own_signals, part_signals};
ghost use Rattle.hier_flat.specs.Flattening.{AreOffsets, slot_signal};

use crate::weights::{Measure, model_weight, output_count, part_weight, weight_at, weights};
use hier_parts::interfaces::{Interface, Interfaces};
use hier_parts::models::{BlifModel, Part, Subcircuit};
use net_core::items::{Items, Signal, SignalList};
use std::alloc::{AllocError, Global};
use std::marker::Model;

/// The place of a name among those that a model drives; none where nothing drives it.
pub type Slot = Option<usize>;

/// Models, and how many flat tables each has.
#[derive(Drop)]
pub struct Sizes<'f, 'm, 'a> {
    models: &'f Interfaces<'m, 'a>,
    sizes: Vec<u64>,
}

impl<'f, 'm, 'a> Model for Sizes<'f, 'm, 'a> {
    ghost use Rattle.std.specs.Prelude.{◌≡◌, length};
    ghost use Rattle.hierarchy_semantics.specs.Models.{Hierarchy};
    ghost use Rattle.hier_flat.specs.Weights.{level_weights};
    ghost use Rattle.hier_flat.specs.Flattening.{by_tables};

    ghost Value = { Hierarchy };

    ghost view = { λ a. a.models.now };

    ghost invariant = { λ a. a.sizes.items ≡ level_weights a.models.now by_tables (length a.models.now) };
}

impl<'f, 'm, 'a> Sizes<'f, 'm, 'a> {
    /// These models, and the number of flat tables of each, which is counted here. The order is one of the
    /// models, each after those that it uses.
    pub fn new(
        alloc: Global,
        models: &'f Interfaces<'m, 'a>,
        all: &[BlifModel],
        order: &[u32],
    ) -> Result<Sizes<'f, 'm, 'a>, AllocError>
        requires models { models.now ≡ all.now }
        requires order { IsModelOrder all.now order.now }
        ensures { IfOk result (λ s. s ≡ all.now) }
    {
        let sizes = weights(alloc, models, Measure::Tables, all, order)?;
        Ok(Sizes { models, sizes })
    }

    /// The model of a name.
    pub fn of(&self, name: &[u8]) -> &'f Interface<'m, 'a>
        ensures { result.now ≡ model_named self.now name.now }
    {
        self.models.of(name)
    }

    /// The models.
    pub fn models(&self) -> &'f Interfaces<'m, 'a>
        ensures { result.now ≡ self.now }
    {
        self.models
    }

    /// How many flat tables the model of a name has.
    fn size(&self, name: &[u8]) -> u64
        ensures { result ≡ capped (size_of self.now (model_named self.now name.now)) }
    {
        weight_at(self.models, &self.sizes, name)
    }

    /// How many flat tables a part has.
    fn part_size(&self, part: &Part) -> u64
        ensures { result ≡ capped (part_size self.now (part_value part.now)) }
    {
        part_weight(self.models, Measure::Tables, &self.sizes, part)
    }

    /// How many flat tables the parts of a model have.
    fn parts_size(&self, m: &BlifModel) -> u64
        ensures { result ≡ capped (sum_by (part_size self.now) m.now.parts) }
    {
        model_weight(self.models, Measure::Tables, &self.sizes, m)
    }
}

/// These signals, and those from `next` on, one for each name that is bound to an output.
fn with_outputs(
    mut signals: SignalList,
    model: &Interface,
    c: &Subcircuit,
    next: Signal,
) -> Result<SignalList, AllocError>
    requires { next + length (filter (λ b. has_name model.now.outputs b.formal) c.now.bindings) < 2 ^ 31 }
    ensures { IfOk result (λ v. v ≡ signals
        ++ range_with_len next (length (filter (λ b. has_name model.now.outputs b.formal) c.now.bindings))) }
{
    let count = output_count(model, c) as u32;
    for signal in next..next + count {
        signals.push(signal)?;
    }
    Ok(signals)
}

/// These signals, and those of what a part drives, whose first flat table has the signal `first`.
fn with_part(
    mut signals: SignalList,
    sizes: &Sizes,
    first: Signal,
    part: &Part,
) -> Result<SignalList, AllocError>
    requires { first + part_size sizes.now (part_value part.now) < 2 ^ 31 }
    ensures { IfOk result (λ v. v
        ≡ signals ++ own_signals sizes.now first (part_value part.now)) }
{
    match part {
        Part::Names(_) => {
            signals.push(first)?;
            Ok(signals)
        }
        Part::Use(c) => {
            let inside = sizes.size(c.model) as u32;
            with_outputs(signals, sizes.of(c.model), c, first + inside)
        }
    }
}

/// These signals, and those of what the parts of a model drive, whose first flat table has the signal
/// `first`.
fn with_parts(
    mut signals: SignalList,
    sizes: &Sizes,
    first: Signal,
    m: &BlifModel,
) -> Result<SignalList, AllocError>
    requires { first + sum_by (part_size sizes.now) m.now.parts < 2 ^ 31 }
    ensures { IfOk result (λ v. v ≡ signals ++ part_signals sizes.now first m.now.parts) }
{
    let mut next = first;
    for part in &m.parts {
        signals = with_part(signals, sizes, next, part)?;
        next += sizes.part_size(part) as u32;
    }
    Ok(signals)
}

/// The signals of what the parts of a model drive, counted from its first flat table; none where they are
/// more than signals can be numbered.
pub fn offsets_of(
    alloc: Global,
    sizes: &Sizes,
    m: &BlifModel,
) -> Result<Option<SignalList>, AllocError>
    ensures offsets { IfOk result (λ o. AreOffsets sizes.now m.now o) }
    ensures none { IfOk result
        (λ o. o ≡ None → 2 ^ 31 ≤ sum_by (part_size sizes.now) m.now.parts) }
{
    if sizes.parts_size(m) >= 1 << 31 {
        return Ok(None);
    }
    Ok(Some(with_parts(Items::new(alloc), sizes, 0, m)?))
}

/// The signals of the names of a model whose inputs have these, and whose first flat table has the signal
/// `first`. Where one would be more than signals can be numbered there is no memory for them.
pub fn frame_of(
    mut signals: SignalList,
    offsets: &SignalList,
    first: Signal,
) -> Result<SignalList, AllocError>
    ensures { IfOk result (λ v. v ≡ signals ++ map (λ s. first + s) offsets.now) }
{
    for offset in offsets.as_slice() {
        let Some(signal) = first.checked_add(*offset) else {
            return Err(AllocError);
        };
        signals.push(signal)?;
    }
    Ok(signals)
}

/// The signal at a slot; 0 where nothing drives the name.
pub fn signal_at(signals: &SignalList, slot: Slot) -> Signal
    ensures { result ≡ slot_signal signals.now slot }
{
    let Some(i) = slot else {
        return 0;
    };
    match signals.as_slice().get(i) {
        Some(signal) => *signal,
        None => 0,
    }
}

/// The signals at slots.
pub fn signals_at(
    alloc: Global,
    signals: &SignalList,
    slots: &[Slot],
) -> Result<SignalList, AllocError>
    ensures { IfOk result (λ v. v ≡ map (slot_signal signals.now) slots.now) }
{
    let mut found = Items::new(alloc);
    for slot in slots {
        found.push(signal_at(signals, *slot))?;
    }
    Ok(found)
}
