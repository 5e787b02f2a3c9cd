//! As which sum the difference of two nets' outputs can be written, where one table was changed: a guess from
//! the values at many vectors.
//!
//! The signals that cut all paths from the changed table to the outputs are looked for a step at a time, each
//! time with the readers in the place of the signals. No proof rests on the guess.

use crate::samples::Samples;
use crate::term::Term;
use crate::weights::{Column, Difference, solve};
use aig_core::literal::{Literal, constant, node_of};
use net_core::items::Signal;
use net_core::net::Net;
use std::alloc::{AllocError, Global};

/// How many steps away from the changed table signals are looked for.
const MOST_ROUNDS: u32 = 7;

/// The most signals that are followed.
const MOST_SIGNALS: usize = 12;

/// How many rounds are made behind that of the best sum.
const ROUNDS_BEHIND: u32 = 1;

/// The tables that read each signal and on which an output depends, as signals: those of signal s stand from
/// `starts[s]` to `starts[s + 1]`.
#[derive(Drop)]
struct Readers {
    starts: Vec<usize>,
    signals: Vec<Signal>,
}

/// Marks signals.
fn mark(marks: &mut Vec<bool>, signals: &[Signal]) {
    for signal in signals {
        let at = *signal as usize;
        if at < marks.len() {
            marks[at] = true;
        }
    }
}

/// The signals that a table reads, none where the table is not marked.
fn marked_pins<'a>(net: &'a Net, marks: &[bool], t: u32) -> &'a [Signal] {
    let at = net.inputs() as usize + t as usize;
    if t < net.tables() && at < marks.len() && marks[at] {
        net.table(t).pins().as_slice()
    } else {
        &net.output_signals()[..0]
    }
}

/// The signals on which an output depends.
fn needed_signals(alloc: Global, net: &Net) -> Result<Vec<bool>, AllocError> {
    let mut needed = vec![in alloc; false; net.signals() as usize]?;
    mark(&mut needed, net.output_signals());
    for t in net.order().iter().rev() {
        let pins = marked_pins(net, &needed, *t);
        mark(&mut needed, pins);
    }
    Ok(needed)
}

/// Counts the pins of a table, each at its signal.
fn count_pins(counts: &mut Vec<usize>, pins: &[Signal]) {
    for pin in pins {
        let at = *pin as usize;
        if at < counts.len() {
            counts[at] = counts[at].saturating_add(1);
        }
    }
}

/// Makes each number the sum of all up to it.
fn add_up(counts: &mut Vec<usize>) {
    let mut sum = 0usize;
    for i in 0..counts.len() {
        sum = sum.saturating_add(counts[i]);
        counts[i] = sum;
    }
}

impl Readers {
    /// Puts a table to the readers of its pins.
    fn put(&mut self, reader: Signal, pins: &[Signal]) {
        for pin in pins {
            let at = *pin as usize;
            if at < self.starts.len() {
                let place = self.starts[at].saturating_sub(1);
                self.starts[at] = place;
                if place < self.signals.len() {
                    self.signals[place] = reader;
                }
            }
        }
    }

    /// Where the readers of each signal end.
    fn ends(alloc: Global, net: &Net, needed: &[bool]) -> Result<Vec<usize>, AllocError> {
        let mut counts = vec![in alloc; 0; net.signals() as usize + 1]?;
        for t in 0..net.tables() {
            count_pins(&mut counts, marked_pins(net, needed, t));
        }
        add_up(&mut counts);
        Ok(counts)
    }

    /// The readers of each signal of a net.
    fn of(alloc: Global, net: &Net) -> Result<Readers, AllocError> {
        let needed = needed_signals(alloc, net)?;
        let starts = Readers::ends(alloc, net, &needed)?;
        let count = match starts.as_slice() {
            [.., last] => *last,
            [] => 0,
        };
        let mut readers = Readers {
            starts,
            signals: vec![in alloc; 0; count]?,
        };
        for t in (0..net.tables()).rev() {
            let reader = net.inputs().saturating_add(t);
            readers.put(reader, marked_pins(net, &needed, t));
        }
        Ok(readers)
    }

    /// The readers of a signal.
    fn at(&self, signal: Signal) -> &[Signal] {
        let s = signal as usize;
        if s + 1 >= self.starts.len() {
            return &self.signals[..0];
        }
        let start = self.starts[s];
        let end = self.starts[s + 1];
        if start <= end && end <= self.signals.len() {
            &self.signals[start..end]
        } else {
            &self.signals[..0]
        }
    }
}

/// Adds the signals that are not there, until there are too many.
fn join(front: &mut Vec<Signal>, more: &[Signal]) -> Result<(), AllocError> {
    for signal in more {
        if front.len() > MOST_SIGNALS {
            break;
        }
        if !front.contains(signal) {
            front.push(*signal)?;
        }
    }
    Ok(())
}

/// The readers of the signals, and themselves those that are outputs or have no reader.
fn next_front(
    alloc: Global,
    net: &Net,
    readers: &Readers,
    front: &[Signal],
) -> Result<Vec<Signal>, AllocError> {
    let mut next = Vec::new(alloc);
    for signal in front {
        let more = readers.at(*signal);
        if more.is_empty() || net.output_signals().contains(signal) {
            join(&mut next, &[*signal])?;
        } else {
            join(&mut next, more)?;
        }
    }
    Ok(next)
}

/// The literal of a signal, false where there is none.
fn literal_of(literals: &[Literal], signal: Signal) -> Literal {
    let at = signal as usize;
    if at < literals.len() {
        literals[at]
    } else {
        constant(false)
    }
}

/// The columns of the signals whose values differ.
fn columns_of(
    alloc: Global,
    samples: &Samples,
    changed: &Changed,
    front: &[Signal],
) -> Result<Vec<Column>, AllocError> {
    let mut columns = Vec::new(alloc);
    for signal in front {
        let column = Column::new(
            samples,
            literal_of(changed.before, *signal),
            literal_of(changed.behind, *signal),
        );
        if !column.is_nothing() {
            columns.push(column)?;
        }
    }
    Ok(columns)
}

/// What two words count apart at each vector.
fn difference_of(
    alloc: Global,
    samples: &Samples,
    words: &Words,
) -> Result<Difference, AllocError> {
    let mut difference = Difference::new(alloc)?;
    let mut weight = words.weight;
    for (first, second) in words.before.iter().zip(words.behind) {
        let column = Column::new(samples, *first, *second);
        if !column.is_nothing() {
            difference.add(&column, weight);
        }
        weight = weight.wrapping_add(weight);
    }
    Ok(difference)
}

/// The terms of the columns, each by its weight, without those that count nothing.
fn terms_of(alloc: Global, columns: &[Column], weights: &[u32]) -> Result<Vec<Term>, AllocError> {
    let mut terms = Vec::new(alloc);
    for (column, weight) in columns.iter().zip(weights) {
        if *weight != 0 {
            let back = weight.wrapping_neg();
            terms.push(Term {
                literal: column.before,
                weight: *weight,
            })?;
            terms.push(Term {
                literal: column.behind,
                weight: back,
            })?;
        }
    }
    Ok(terms)
}

/// The terms that make the difference from these columns, if such are found.
fn sum_of(
    alloc: Global,
    columns: &[Column],
    difference: &Difference,
) -> Result<Option<Vec<Term>>, AllocError> {
    match solve(alloc, columns, difference)? {
        Some(weights) => Ok(Some(terms_of(alloc, columns, &weights)?)),
        None => Ok(None),
    }
}

/// How many terms are not of the constant.
fn size_of_sum(terms: &[Term]) -> usize {
    let mut size = 0usize;
    for term in terms {
        if node_of(term.literal) != 0 {
            size = size.saturating_add(1);
        }
    }
    size
}

/// The best sum that was found, its size, and the round in which it was found.
#[derive(Drop)]
struct Best {
    terms: Option<Vec<Term>>,
    size: usize,
    round: u32,
}

impl Best {
    /// No sum.
    fn new() -> Best {
        Best {
            terms: None,
            size: 0,
            round: 0,
        }
    }

    /// Keeps the terms of a round where no fewer are kept.
    fn offer(&mut self, terms: Vec<Term>, round: u32) {
        let size = size_of_sum(&terms);
        if self.terms.is_none() || size < self.size {
            self.terms = Some(terms);
            self.size = size;
            self.round = round;
        }
    }

    /// Whether the best sum was found long ago.
    fn is_old(&self, round: u32) -> bool {
        self.terms.is_some() && round.saturating_sub(self.round) > ROUNDS_BEHIND
    }
}

/// A net behind a change of the table of a signal, and the literals of the signals before and behind it.
#[derive(Clone, Copy)]
pub struct Changed<'a> {
    pub after: &'a Net,
    pub signal: Signal,
    pub before: &'a [Literal],
    pub behind: &'a [Literal],
}

/// Two words of literals. The lowest literals of both count by `weight`, and each behind them by twice as
/// much.
#[derive(Clone, Copy)]
pub struct Words<'a> {
    pub before: &'a [Literal],
    pub behind: &'a [Literal],
    pub weight: u32,
}

/// The terms that make the difference of two words at all vectors, if such are found: literals of signals
/// before and behind the change.
pub fn effect_of(
    alloc: Global,
    samples: &Samples,
    changed: &Changed,
    words: &Words,
) -> Result<Option<Vec<Term>>, AllocError> {
    let readers = Readers::of(alloc, changed.after)?;
    let difference = difference_of(alloc, samples, words)?;
    let mut front = vec![in alloc; changed.signal; 1]?;
    let mut best = Best::new();
    for round in 0..MOST_ROUNDS {
        let columns = columns_of(alloc, samples, changed, &front)?;
        if let Some(terms) = sum_of(alloc, &columns, &difference)? {
            best.offer(terms, round);
        }
        if best.is_old(round) {
            break;
        }
        front = next_front(alloc, changed.after, &readers, &front)?;
        if front.len() > MOST_SIGNALS {
            break;
        }
    }
    Ok(best.terms)
}
