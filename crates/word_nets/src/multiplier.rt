//! The array multiplier: all partial products, and then their sum, row after row.
ghost use Rattle.std.specs.Prelude.{◌≡◌, ◌+◌, ◌*◌, ◌<◌, ◌≤◌, ◌++◌, length, replicate, All, IfOk, OnOk};
ghost use Rattle.quality_semantics.specs.WordNets.{signals, BeginsWith, AreSignalsOf};
ghost use Rattle.quality_semantics.specs.Multiply.{products, product_rows, sum_of_rows, multiplier_net};
ghost use Rattle.quality_semantics.specs.Multiply.{Multiplies};
ghost use Rattle.semantics.specs.Error.{bit_number};
ghost use Rattle.quality_semantics.specs.Laws.{number};
ghost use Rattle.bus_nets.specs.Numbers.{HasNumber};

use bus_nets::bus::{Bus, repeated};
use bus_nets::forms::AND2;
use bus_nets::word_net::WordNet;
use net_core::net::Net;
use net_parts::items::{Items, Signal};
use std::alloc::{AllocError, Global};

/// The number of the bus times 2^`times`: the signal of 0 stands `times` times in front of the bus.
fn doubled(alloc: Global, zero: Signal, times: usize, bus: &Bus) -> Result<Bus, AllocError>
    ensures { IfOk result (λ b. b ≡ replicate times zero ++ bus.now) }
{
    let mut doubled = repeated(alloc, zero, times)?;
    doubled.push_copies(bus.as_slice())?;
    Ok(doubled)
}

/// The conjunction of each bit of a bus with `bit`.
#[tactic(auto, using(crate::proofs::Multiplying::begins_after))]
fn products(alloc: Global, net: &mut WordNet, bit: Signal, x: &Bus) -> Result<Bus, AllocError>
    requires bit_in { bit < signals net.old }
    requires x_in { AreSignalsOf net.old x.now }
    ensures more { signals net.old ≤ signals net.new }
    ensures within { IfOk result (λ bus. AreSignalsOf net.new bus) }
    ensures ok { OnOk result (net.new ≡ (products net.old bit x.now).net) }
    ensures bus { IfOk result (λ bus. bus ≡ (products net.old bit x.now).bus) }
    ensures number { IfOk result (λ bus. HasNumber net.new bus (λ v. bit_number (v bit) * number v x.now)) }
    ensures begins { BeginsWith net.new net.old }
{
    let mut bits = Bus::new(alloc);
    for at in x.as_slice() {
        let product = net.append_form([*at, bit], &AND2)?;
        bits.push(product)?;
    }
    Ok(bits)
}

/// One row of partial products for each bit of y.
#[tactic(auto, using(crate::proofs::Multiplying::begins_after))]
fn product_rows(
    alloc: Global,
    net: &mut WordNet,
    x: &Bus,
    y: &Bus,
) -> Result<Items<Bus>, AllocError>
    requires x_in { AreSignalsOf net.old x.now }
    requires y_in { AreSignalsOf net.old y.now }
    ensures more { signals net.old ≤ signals net.new }
    ensures within { IfOk result (λ rows. All (AreSignalsOf net.new) rows) }
    ensures ok { OnOk result (net.new ≡ (product_rows net.old x.now y.now).net) }
    ensures rows { IfOk result (λ rows. rows ≡ (product_rows net.old x.now y.now).rows) }
    ensures begins { BeginsWith net.new net.old }
{
    let mut rows = Items::new(alloc);
    for bit in y.as_slice() {
        let row = products(alloc, net, *bit, x)?;
        rows.push(row)?;
    }
    Ok(rows)
}

/// The sum of the rows, of which there is at least one; each row is doubled once more than the row before it.
#[tactic(auto, using(crate::proofs::Multiplying::begins_after))]
fn sum_of_rows(alloc: Global, net: &mut WordNet, rows: &Items<Bus>) -> Result<Bus, AllocError>
    requires some { 0 < length rows.now }
    requires rows_in { All (AreSignalsOf net.old) rows.now }
    ensures more { signals net.old ≤ signals net.new }
    ensures within { IfOk result (λ bus. AreSignalsOf net.new bus) }
    ensures ok { OnOk result (net.new ≡ (sum_of_rows net.old rows.now).net) }
    ensures bus { IfOk result (λ bus. bus ≡ (sum_of_rows net.old rows.now).bus) }
    ensures begins { BeginsWith net.new net.old }
{
    let mut sum = rows.get(0).copy()?;
    for place in 1..rows.len() {
        let row = doubled(alloc, net.zero(), place, rows.get(place))?;
        sum = net.add(&sum, &row)?;
    }
    Ok(sum)
}

/// The net whose output number is the product of its two words of `width` bits.
pub fn mul_net(alloc: Global, width: u32) -> Result<Net, AllocError>
    requires some { 1 ≤ width }
    requires narrow { width ≤ 8 }
    ensures net { IfOk result (λ n. n ≡ multiplier_net width) }
    ensures multiplies { IfOk result (λ n. Multiplies width n) }
{
    let mut net = WordNet::new(alloc, width + width)?;
    let first = net.input_bus(0, width)?;
    let second = net.input_bus(width, width)?;
    let rows = product_rows(alloc, &mut net, &first, &second)?;
    let product = sum_of_rows(alloc, &mut net, &rows)?;
    net.finish(product.as_slice())
}
