//! Which input is at which place of a counting order.
//!
//! The input at place 0 changes from each vector to the next one, and the input at the last place changes
//! once. A net's own counting order has input i at place i.
ghost use Rattle.std.specs.Prelude.{◌≡◌, ◌<◌, ◌≤◌, length, slice_index, IfOk};
ghost use Rattle.std.specs.List.{range_with_len, swap};

use std::alloc::{AllocError, Global};
use std::marker::Model;

/// The inputs by their places, and the place of each input.
#[derive(Drop)]
pub struct InputOrder {
    order: Vec<u32>,
    places: Vec<u32>,
}

impl Model for InputOrder {
    ghost use Rattle.std.specs.Prelude.{List, ℕ};
    ghost use Rattle.lane_bits.specs.InputOrder.{ArePlacesIn};

    ghost Value = { List ℕ };

    ghost view = { λ o. o.order.items };

    ghost invariant = { λ o. ArePlacesIn o.order.items o.places.items };
}

/// The numbers below `count`.
fn numbers(alloc: Global, count: u32) -> Result<Vec<u32>, AllocError>
    ensures { IfOk result (λ numbers. numbers.items ≡ range_with_len 0 count) }
{
    let mut numbers = Vec::new(alloc);
    for i in 0..count {
        numbers.push(i)?;
    }
    Ok(numbers)
}

impl InputOrder {
    /// Each input at its own place.
    pub fn own(alloc: Global, inputs: u32) -> Result<InputOrder, AllocError>
        ensures { IfOk result (λ o. o ≡ range_with_len 0 inputs) }
    {
        Ok(InputOrder {
            order: numbers(alloc, inputs)?,
            places: numbers(alloc, inputs)?,
        })
    }

    /// How many inputs there are.
    pub fn inputs(&self) -> usize
        ensures { result ≡ length self.now }
    {
        self.order.len()
    }

    /// The input at place p.
    pub fn input(&self, p: usize) -> u32
        requires { p < length self.now }
        ensures value { result ≡ slice_index self.now p }
        ensures within { result < length self.now }
    {
        self.order[p]
    }

    /// The place of an input.
    pub(crate) fn place(&self, input: usize) -> u32
        requires { input < length self.now }
        ensures within { result < length self.now }
        ensures there { slice_index self.now result ≡ input }
    {
        self.places[input]
    }

    /// Lets the inputs at two places change places.
    pub fn exchange(&mut self, p: usize, q: usize)
        requires p { p < length self.old }
        requires q { q < length self.old }
        ensures { self.new ≡ swap self.old p q }
    {
        let (a, b) = (self.order[p], self.order[q]);
        self.order[p] = b;
        self.order[q] = a;
        self.places[a as usize] = q as u32;
        self.places[b as usize] = p as u32;
    }
}
