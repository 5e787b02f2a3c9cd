//! An order of a net's inputs in which few signals hang on the fast ones.
//!
//! A walk over all vectors in a counting order computes anew what hangs on the inputs that change. The inputs
//! with large fan-out cones get the first places, which lie within a block of 512 vectors, and the last
//! places, which change seldom; those with small cones get the places between, the smallest first.
ghost use Rattle.std.specs.Prelude.{◌≡◌, ◌<◌, ◌≤◌, length, All, IfOk};
ghost use Rattle.semantics.specs.Net.{input_count, signal_count};

use lane_bits::input_order::InputOrder;
use net_core::net::Net;
use net_core::table::Table;
use std::alloc::{AllocError, Global};

/// The number of places within a block of 512 vectors.
const BLOCK_PLACES: usize = 9;

/// The inputs that a table's pins hang on, a bit for each input.
fn table_cone(table: &Table, cones: &[u32]) -> u32
    requires { All (λ s. s < length cones.now) table.now.pins }
{
    let mut cone = 0;
    for s in table.pins().as_slice() {
        cone |= cones[*s as usize];
    }
    cone
}

/// Sets the bits of the inputs themselves.
fn set_input_cones(inputs: u32, cones: &mut [u32])
    requires few { inputs ≤ 32 }
    requires room { inputs ≤ length cones.old }
{
    for i in 0..inputs {
        cones[i as usize] = 1 << i;
    }
}

/// Sets `cones` to the inputs that each signal hangs on, a bit for each input.
fn set_cones(net: &Net, cones: &mut [u32])
    requires few { input_count net.now ≤ 32 }
    requires room { length cones.old ≡ signal_count net.now }
{
    net.see_sound();
    let inputs = net.inputs() as usize;
    set_input_cones(net.inputs(), cones);
    for i in net.order() {
        let cone = table_cone(net.table(*i), cones);
        cones[inputs + *i as usize] = cone;
    }
}

/// The inputs that each signal hangs on, a bit for each input.
fn signal_cones(alloc: Global, net: &Net) -> Result<Vec<u32>, AllocError>
    requires { input_count net.now ≤ 32 }
{
    let mut cones = vec![in alloc; 0; net.signals() as usize]?;
    set_cones(net, &mut cones);
    Ok(cones)
}

/// How many signals hang on an input, and on none of the chosen ones.
fn cone_size(cones: &[u32], input: u32, chosen: u32) -> usize
    requires { input < 32 }
{
    let mut size = 0;
    for i in 0..cones.len() {
        if cones[i] >> input & 1 == 1 && cones[i] & chosen == 0 {
            size += 1;
        }
    }
    size
}

/// The place of the input, out of those that are not chosen, on which the fewest signals hang that hang on
/// none of the chosen ones.
fn least_place(order: &InputOrder, cones: &[u32], chosen: u32) -> usize
    requires some { 0 < length order.now }
    requires few { length order.now ≤ 32 }
    ensures { result < length order.now }
{
    let (mut least, mut size) = (0, usize::MAX);
    for p in 0..order.inputs() {
        let input = order.input(p);
        if chosen >> input & 1 == 0 {
            let other = cone_size(cones, input, chosen);
            if other < size {
                least = p;
                size = other;
            }
        }
    }
    least
}

/// The places of a net's inputs in a counting order, such that few signals hang on those that are fast from
/// one block of 512 vectors to the next.
pub fn cone_order(alloc: Global, net: &Net) -> Result<InputOrder, AllocError>
    requires { input_count net.now ≤ 32 }
    ensures { IfOk result (λ order. length order ≡ input_count net.now) }
{
    let cones = signal_cones(alloc, net)?;
    let mut order = InputOrder::own(alloc, net.inputs())?;
    let mut chosen = 0;
    for p in BLOCK_PLACES..order.inputs() {
        let least = least_place(&order, &cones, chosen);
        order.exchange(p, least);
        chosen |= 1 << order.input(p);
    }
    Ok(order)
}
