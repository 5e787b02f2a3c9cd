//! The outputs of a net in one block of 512 patterns after another, over its tables or over its graph.
ghost use Rattle.std.specs.Prelude.{◌≡◌, ◌+◌, ◌*◌, ◌^◌, ◌<◌, length, IfOk};
ghost use Rattle.semantics.specs.Net.{input_count};
ghost use Rattle.lane_bits.specs.Rows.{word_count};
ghost use Rattle.lane_nets.specs.Wide.{lane_words, AreWideOutputs, AreWideOutputsOf};
ghost use Rattle.lane_nets.specs.Changes.{AreChanges};

use crate::changes::{NextBlock, marks_at};
use crate::graph_blocks::{GraphWalk, graph_walk, set_graph_outputs, settled_values};
use crate::wide_blocks::set_table_outputs;
use crate::word_list::WideList;
use lane_bits::patterns::Patterns;
use net_core::items::Items;
use net_core::net::Net;
use std::alloc::{AllocError, Global};
use std::marker::Model;
use std::simd::u64x8;

/// The least number of patterns at which a net is walked as a graph. Over a graph a wide block
/// takes less than half of the time over tables, and a graph takes as long to make as the tables take for
/// about six wide blocks, so a walk that ends early does not pay for it. With fewer patterns most walks end
/// early: with up to sixteen inputs each net that is tried is walked at all vectors at once, and most nets
/// err at one of the first. With more inputs only nets that passed thousands of vectors are walked at all of
/// them.
pub(crate) const LEAST_GRAPH_PATTERNS: u64 = 131_072;

/// The outputs of a net in eight blocks at a time, with room for the values of its signals, or of the nodes
/// of its graph.
#[derive(Drop)]
pub(crate) struct WideOutputs<'a> {
    net: &'a Net,
    patterns: &'a Patterns,
    /// Marks of the inputs that may differ from wide block to wide block.
    changes: &'a [u64],
    walk: Option<GraphWalk>,
    wides: Vec<u64x8>,
    outputs: Vec<u64x8>,
    /// The wide block behind the one whose inputs stand in a graph's values, or 0 where none do.
    next: usize,
}

impl<'a> Model for WideOutputs<'a> {
    ghost use Rattle.lane_nets.specs.Wide.{WideOutputsValue};
    ghost use Rattle.lane_nets.specs.Changes.{IsWalked};

    ghost Value = { WideOutputsValue };

    ghost view = { λ w. record {
      net = w.net.now;
      patterns = w.patterns.now;
      outputs = w.outputs.items;
    } };

    ghost invariant = { λ w. IsWalked w.net.now w.patterns.now (record {
      marks = w.changes.now;
      walk = w.walk;
      next = w.next;
      wides = w.wides.items;
      outputs = w.outputs.items;
    }) };
}

impl<'a> WideOutputs<'a> {
    /// Room for the outputs of a net at these patterns.
    pub(crate) fn new(
        alloc: Global,
        net: &'a Net,
        patterns: &'a Patterns,
        changes: &'a [u64],
    ) -> Result<WideOutputs<'a>, AllocError>
        requires inputs { patterns.now.inputs ≡ input_count net.now }
        requires changes { AreChanges patterns.now changes.now }
        ensures net { IfOk result (λ w. w.net ≡ net.now) }
        ensures patterns { IfOk result (λ w. w.patterns ≡ patterns.now) }
    {
        if patterns.count() < LEAST_GRAPH_PATTERNS {
            WideOutputs::over_tables(alloc, net, patterns, changes)
        } else {
            WideOutputs::over_graph(alloc, net, patterns, changes)
        }
    }

    /// Room for the outputs, which are found from the values of all signals.
    fn over_tables(
        alloc: Global,
        net: &'a Net,
        patterns: &'a Patterns,
        changes: &'a [u64],
    ) -> Result<WideOutputs<'a>, AllocError>
        requires inputs { patterns.now.inputs ≡ input_count net.now }
        requires changes { AreChanges patterns.now changes.now }
        ensures net { IfOk result (λ w. w.net ≡ net.now) }
        ensures patterns { IfOk result (λ w. w.patterns ≡ patterns.now) }
    {
        Ok(WideOutputs {
            net,
            patterns,
            changes,
            walk: None,
            wides: vec![in alloc; u64x8::splat(0); net.signals() as usize]?,
            outputs: vec![in alloc; u64x8::splat(0); net.outputs() as usize]?,
            next: 0,
        })
    }

    /// Room for the outputs, which are found from the values of the nodes of a graph that is made here.
    fn over_graph(
        alloc: Global,
        net: &'a Net,
        patterns: &'a Patterns,
        changes: &'a [u64],
    ) -> Result<WideOutputs<'a>, AllocError>
        requires inputs { patterns.now.inputs ≡ input_count net.now }
        requires changes { AreChanges patterns.now changes.now }
        ensures net { IfOk result (λ w. w.net ≡ net.now) }
        ensures patterns { IfOk result (λ w. w.patterns ≡ patterns.now) }
    {
        let walk = graph_walk(alloc, net, patterns)?;
        let wides = settled_values(alloc, &walk)?;
        Ok(WideOutputs {
            net,
            patterns,
            changes,
            walk: Some(walk),
            wides,
            outputs: vec![in alloc; u64x8::splat(0); net.outputs() as usize]?,
            next: 0,
        })
    }

    /// Lets this hold the outputs in wide block q. Behind the wide block before it this is quicker.
    pub(crate) fn reach(&mut self, q: usize)
        requires within { 8 * q < word_count (length self.old.patterns.vectors) }
        requires room { q + 1 < 2 ^ 64 }
        ensures net { self.new.net ≡ self.old.net }
        ensures patterns { self.new.patterns ≡ self.old.patterns }
        ensures outputs { AreWideOutputs self.old.net self.old.patterns.vectors q self.new.outputs }
    {
        let marks = marks_at(self.changes, self.next, q);
        self.next = q + 1;
        let patterns = self.patterns;
        let next = NextBlock { patterns, q, marks };
        let (wides, outputs) = (&mut self.wides, &mut self.outputs);
        match &self.walk {
            Some(walk) => set_graph_outputs(self.net, walk, &next, wides, outputs),
            None => set_table_outputs(self.net, patterns, q, wides, outputs),
        }
    }

    /// The wide words of the outputs.
    pub(crate) fn outputs(&self) -> &[u64x8]
        ensures outputs { result.now ≡ self.now.outputs }
        ensures count { length self.now.outputs ≡ length self.now.net.outputs }
    {
        &self.outputs
    }
}

/// Sets `words` to one of the eight words of each wide word.
#[tactic(auto, using(crate::proofs::WideWords::lane_words_get))]
pub(crate) fn set_lane_words(wides: &[u64x8], j: usize, words: &mut [u64])
    requires lane { j < 8 }
    requires room { length words.old ≡ length wides.now }
    ensures { words.new ≡ lane_words wides.now j }
{
    for (i, wide) in wides.iter().enumerate() {
        words[i] = wide.to_array()[j];
    }
}

/// A net's outputs at all patterns, in blocks of 512.
pub(crate) fn wide_rows(
    alloc: Global,
    net: &Net,
    patterns: &Patterns,
    changes: &[u64],
) -> Result<Items<WideList>, AllocError>
    requires inputs { patterns.now.inputs ≡ input_count net.now }
    requires changes { AreChanges patterns.now changes.now }
    ensures { IfOk result (AreWideOutputsOf net.now patterns.now.vectors) }
{
    let count = patterns.count().div_ceil(512);
    let mut wide = WideOutputs::new(alloc, net, patterns, changes)?;
    let mut rows = Items::new(alloc);
    for q in 0..count {
        wide.reach(q as usize);
        rows.push(WideList::from_slice(alloc, wide.outputs())?)?;
    }
    Ok(rows)
}
