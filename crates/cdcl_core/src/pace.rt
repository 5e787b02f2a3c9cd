//! When the search goes back to its start.
//!
//! A learned clause of few levels is likely to be used again. Where the last clauses have more levels on
//! average than those of the whole search, the decisions are not worth keeping: the search restarts. In the
//! averages a clause weighs less the older it is; they are fixed-point numbers with 32 bits behind the point.
//! Source: Glucose, with the averages of Biere and Froehlich, which CaDiCaL has.
//!
//! Where nothing is known of a net behind the formula the last clauses have to be of many more levels: in a
//! trial outside of this repository formulas of multipliers then took hardly more conflicts than without any
//! restart, and large formulas of adders far fewer.
//!
//! A search behind a net that has gone on for long restarts less often, too. By then many clauses are held,
//! so it is dear to propagate the same decisions once more.
//!
//! With few inputs a search that has gone on for long decides them in the order of their numbers, without
//! restarts: then it goes over their vectors, as far as clauses do not rule them out many at a time. So it
//! ends, but its clauses are long, and each conflict walks much of the net: with sixteen inputs most
//! formulas end sooner without it.
ghost use Rattle.std.specs.Prelude.{◌<◌, ◌≤◌};

use std::alloc::{AllocError, Global};

/// The most inputs that come to be decided in the order of their numbers.
const ORDERED_INPUTS: u32 = 16;

/// The conflicts of a search, besides a share of the vectors, from which on it decides few inputs in the
/// order of their numbers.
const LONG: u64 = 3000;

/// One in this number of the vectors counts, with fewer inputs than `ORDERED_INPUTS` and with as many.
const SHARE: u64 = 8;

const LAST_SHARE: u64 = 2;

/// How far the averages reach: a clause weighs 1 / 2 ^ n of the fast or the slow one.
const FAST: u32 = 5;

const SLOW: u32 = 14;

/// How large the fast average has to be, in hundredths of the slow one: where the signals of a net are known,
/// in a long search behind a net, and where no net is known.
const NET_MARGIN: u64 = 105;

const LATE_MARGIN: u64 = 115;

const BARE_MARGIN: u64 = 120;

/// The conflicts of a search behind a net from which on it takes `LATE_MARGIN`.
const LATE: u64 = 50_000;

/// The averages, the clauses that were learned, those since the last restart, the number of inputs where they
/// are few, and the number of levels of each clause that was learned since these were taken last.
#[derive(Drop)]
pub struct Pace {
    fast: u64,
    slow: u64,
    learned: u64,
    since: u64,
    inputs: u32,
    is_net: bool,
    levels: Vec<u32>,
}

/// An average with one number more, which is a plain one at the beginning.
fn average(so_far: u64, levels: u64, learned: u64, shift: u32) -> u64
    requires some { 0 < shift }
    requires small { shift ≤ 32 }
{
    let weight = learned.saturating_add(1).ilog2().clamp(1, shift);
    so_far
        .wrapping_sub(so_far >> weight)
        .wrapping_add(levels << (32 - weight))
}

impl Pace {
    /// Nothing was learned yet. `is_net`: the signals of a net are known.
    pub fn new(alloc: Global, inputs: u32, is_net: bool) -> Pace {
        Pace {
            fast: 0,
            slow: 0,
            learned: 0,
            since: 0,
            inputs: if inputs <= ORDERED_INPUTS { inputs } else { 0 },
            is_net,
            levels: Vec::new(alloc),
        }
    }

    /// Lists the number of levels of a clause that was learned.
    pub fn list(&mut self, levels: u64) -> Result<(), AllocError> {
        self.levels.push(u32::try_from(levels).unwrap_or(u32::MAX))?;
        Ok(())
    }

    /// The numbers of levels that were listed.
    pub fn levels(&self) -> &[u32] {
        &self.levels
    }

    /// Ends the list of levels.
    pub fn end_list(&mut self) {
        self.levels.clear();
    }

    /// Notes that a clause was learned whose literals stand on `levels` levels of decisions.
    pub fn note(&mut self, levels: u64) {
        self.fast = average(self.fast, levels, self.learned, FAST);
        self.slow = average(self.slow, levels, self.learned, SLOW);
        self.learned = self.learned.saturating_add(1);
        self.since = self.since.saturating_add(1);
    }

    /// How many inputs are decided first, in the order of their numbers.
    pub fn inputs_first(&self) -> u32 {
        let vectors: u64 = 1 << self.inputs.min(ORDERED_INPUTS);
        let part = if self.inputs < ORDERED_INPUTS {
            vectors / SHARE
        } else {
            vectors / LAST_SHARE
        };
        if self.learned >= part + LONG {
            self.inputs
        } else {
            0
        }
    }

    /// How large the fast average has to be, in hundredths of the slow one.
    fn margin(&self) -> u64
        ensures { result ≤ 120 }
    {
        if !self.is_net {
            BARE_MARGIN
        } else if self.learned < LATE {
            NET_MARGIN
        } else {
            LATE_MARGIN
        }
    }

    /// Whether the search goes back to its start now.
    pub fn restarts(&mut self) -> bool {
        let margin = self.margin();
        let due = self.since >= 2
            && self.inputs_first() == 0
            && self.fast / 65536 * 100 > self.slow / 65536 * margin;
        if due {
            self.since = 0;
        }
        due
    }
}
