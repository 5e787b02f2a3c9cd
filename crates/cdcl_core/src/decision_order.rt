//! The order in which variables are decided, and the value that each variable had last.
//!
//! A variable that took part in a conflict is likely to take part in the next one, so it moves to the front
//! of a ring, from which the first open variable is decided: variable move to front, as in Siege and CaDiCaL.
//! This costs a few writes for each variable of a conflict, and needs no numbers that grow or decay. A
//! variable is decided with the value that it had last, as in RSat and MiniSat, so that a jump back does not
//! throw away what was found in other parts of the formula.
//!
//! Where the signals of a net are known, only they are in the ring: the variables of rows follow from them,
//! and the variables of one conflict keep their order. Where the signals are not known, each literal of each
//! clause that was resolved brings its variable to the front, from clause to clause, so that the variables
//! farthest from the conflict, the inputs among them, are decided first: in a trial outside of this
//! repository formulas of multipliers then took about half the conflicts.
//!
//! No statement depends on the order: any order would do, and a decision looks for an open variable elsewhere
//! where the ring shows none.
ghost use Rattle.std.specs.Prelude.{◌≡◌, ◌<◌, ◌≤◌, ◌^◌, IfOk};
ghost use Rattle.proof_semantics.specs.Clauses.{IsLiteralOf};

use crate::guide::Guide;
use crate::literal::Literal;
use crate::ring::Ring;
use std::alloc::{AllocError, Global};
use std::marker::Model;

/// The number of bits of a noted variable, which stand below those of its stamp.
const VARIABLE_BITS: u32 = 31;

/// The ring of the variables that are decided, the last value of each, and the variables of a conflict.
#[derive(Drop)]
pub struct Order {
    ring: Ring,
    values: Vec<bool>,
    noted: Vec<u64>,
    /// Whether the variables of a conflict keep their order.
    keeps_order: bool,
}

impl Model for Order {
    ghost use Rattle.std.specs.Prelude.{ℕ, ◌-◌, ◌<◌, ◌≤◌, length};

    ghost Value = { ℕ };

    ghost view = { λ o. length o.values.items - 1 };

    ghost invariant = { λ o. (0 < length o.values.items) × (o.ring ≤ length o.values.items) };
}

/// The noted variables come first, the variable with the last key before the others.
fn move_noted(ring: &mut Ring, noted: &mut Vec<u64>)
    ensures { ring.new ≡ ring.old }
{
    'each: while let Some(key) = noted.pop() {
        let variable = key & ((1 << VARIABLE_BITS) - 1);
        if ring.has(variable as usize) {
            ring.move_to_front(variable as u32);
        }
    }
}

impl Order {
    /// The variables up to `signals`, or all variables where `signals` is 0; the last one comes first, and
    /// each has the last value true.
    pub fn new(alloc: Global, variables: u32, signals: u32) -> Result<Order, AllocError>
        requires { variables < 2 ^ 31 }
        ensures { IfOk result (λ order. order ≡ variables) }
    {
        let last = if signals == 0 {
            variables
        } else {
            signals.min(variables)
        };
        Order::of_first(alloc, variables, last, signals > 0)
    }

    /// The first `last` of the variables, the last one before the others; each has the last value true.
    fn of_first(
        alloc: Global,
        variables: u32,
        last: u32,
        keeps_order: bool,
    ) -> Result<Order, AllocError>
        requires variables { variables < 2 ^ 31 }
        requires last { last ≤ variables }
        ensures { IfOk result (λ order. order ≡ variables) }
    {
        Ok(Order {
            ring: Ring::new(alloc, last)?,
            values: vec![in alloc; true; variables as usize + 1]?,
            noted: Vec::new(alloc),
            keeps_order,
        })
    }

    /// The order in which the inputs come first, and each variable has its value in `values` as the last one.
    pub fn with_values(
        alloc: Global,
        variables: u32,
        guide: &Guide,
        values: &[bool],
    ) -> Result<Order, AllocError>
        requires { variables < 2 ^ 31 }
        ensures { IfOk result (λ order. order ≡ variables) }
    {
        let mut order = Order::new(alloc, variables, guide.signals)?;
        for v in 0..variables.min(guide.inputs) {
            order.bring(Literal::of(v + 1, true));
        }
        for (place, value) in values.iter().enumerate() {
            order.set_value(place, *value);
        }
        order.rewind();
        Ok(order)
    }

    /// The order in which the variables that are read come first, the last of them before the others.
    pub fn of_read(alloc: Global, variables: u32, read: &[bool]) -> Result<Order, AllocError>
        requires { variables < 2 ^ 31 }
        ensures { IfOk result (λ order. order ≡ variables) }
    {
        let mut order = Order::of_first(alloc, variables, variables, true)?;
        for v in 0..variables {
            let at = v as usize + 1;
            if at < read.len() && read[at] {
                order.bring(Literal::of(v + 1, true));
            }
        }
        order.rewind();
        Ok(order)
    }

    /// Notes a value as the last one of the variable behind a place.
    fn set_value(&mut self, place: usize, value: bool)
        ensures { self.new ≡ self.old }
    {
        if place < self.values.len() - 1 {
            self.values[place + 1] = value;
        }
    }

    /// How many variables there are.
    pub fn variables(&self) -> usize
        ensures { result ≡ self.now }
    {
        self.values.len() - 1
    }

    /// Lets the search for an open variable begin at the front.
    pub fn rewind(&mut self)
        ensures { self.new ≡ self.old }
    {
        self.ring.rewind();
    }

    /// Where the search for an open variable begins, or 0 where there is none.
    pub fn search(&self) -> u32
        ensures { result ≤ self.now }
    {
        self.ring.search()
    }

    /// The variables before this one have values.
    pub fn set_search(&mut self, variable: u32)
        ensures { self.new ≡ self.old }
    {
        if self.ring.has(variable as usize) {
            self.ring.set_search(variable);
        }
    }

    /// The variable behind another one, or 0 behind the last.
    pub fn next(&self, variable: u32) -> u32
        ensures { result ≤ self.now }
    {
        if self.ring.has(variable as usize) {
            self.ring.next(variable)
        } else {
            0
        }
    }

    /// The stamp of a variable, or 0 where the variable is none of those that are decided.
    pub fn stamp(&self, variable: u32) -> u64 {
        if self.ring.has(variable as usize) {
            self.ring.stamp(variable)
        } else {
            0
        }
    }

    /// The value that a variable had last.
    pub fn value(&self, variable: u32) -> bool
        requires { variable ≤ self.now }
    {
        self.values[variable as usize]
    }

    /// Notes that the literal is no longer true.
    pub fn open(&mut self, literal: Literal)
        requires { IsLiteralOf self.old literal }
        ensures { self.new ≡ self.old }
    {
        let variable = literal.variable();
        self.values[variable] = literal.sign();
        if self.ring.has(variable) {
            self.ring.open(variable as u32);
        }
    }

    /// Whether the variables of a conflict keep their order, since the signals of a net are known.
    pub fn keeps_order(&self) -> bool {
        self.keeps_order
    }

    /// Moves the literal's variable, which has a value, to the front.
    pub fn bring(&mut self, literal: Literal)
        ensures { self.new ≡ self.old }
    {
        let variable = literal.variable();
        if self.ring.has(variable) {
            self.ring.move_to_front(variable as u32);
        }
    }

    /// Takes the memory to note `variables` variables.
    pub fn make_room(&mut self, variables: usize) -> Result<(), AllocError>
        ensures { self.new ≡ self.old }
    {
        self.noted.reserve(variables)
    }

    /// Notes that the literal's variable took part in a conflict, where there is room.
    pub fn note(&mut self, literal: Literal)
        ensures { self.new ≡ self.old }
    {
        let variable = literal.variable();
        if self.ring.has(variable) && self.noted.len() < self.noted.capacity() {
            let later = !self.ring.stamp(variable as u32) << VARIABLE_BITS;
            self.noted.push_reserved(later | variable as u64);
        }
    }

    /// Moves the variables that were noted to the front, where they keep their order.
    pub fn bump(&mut self)
        ensures { self.new ≡ self.old }
    {
        self.noted.sort_unstable();
        move_noted(&mut self.ring, &mut self.noted);
    }
}
