//! The half adder as a net, and a table with the opposite of its carry, at many patterns, all `00` but the
//! last, which is `11`.
ghost use Rattle.std.specs.Prelude.{◌≡◌, ◌<◌, ◌∷◌, [], length, IfOk, All};
ghost use Rattle.semantics.specs.Net.{input_count, table_count};

use crate::flip_sim::FlipSim;
use crate::sim::Sim;
use crate::tests::{first_true, patterns};
use aig_core::nets::from_net;
use lane_bits::kernels::first_set;
use net_core::items::{Items, NameList, RowList, Signal, SignalList, TableList};
use net_core::mark::Mark;
use net_core::name::Name;
use net_core::net::Net;
use net_core::row::Row;
use net_core::table::Table;
use std::alloc::{AllocError, Global};
use std::test::Fail;

/// A table of plane 1.
fn table(alloc: Global, number: u64, pins: &[Signal], rows: RowList) -> Result<Table, AllocError>
    requires widths { All (λ marks. length marks ≡ length pins.now) rows }
    requires some { 0 < length rows }
{
    let name = Name::numbered(alloc, b't', number)?;
    let pins = SignalList::from_slice(alloc, pins)?;
    Ok(Table::new(name, pins, rows, true))
}

/// A single row.
fn one_row(alloc: Global, marks: &[Mark]) -> Result<RowList, AllocError>
    ensures { IfOk result (λ rows. rows ≡ marks.now ∷ []) }
{
    let mut rows = Items::new(alloc);
    rows.push(Row::from_slice(alloc, marks)?)?;
    Ok(rows)
}

/// Two rows.
fn two_rows(alloc: Global, first: &[Mark], second: &[Mark]) -> Result<RowList, AllocError>
    ensures { IfOk result (λ rows. rows ≡ first.now ∷ second.now ∷ []) }
{
    let mut rows = one_row(alloc, first)?;
    rows.push(Row::from_slice(alloc, second)?)?;
    Ok(rows)
}

/// The names of two inputs.
fn two_names(alloc: Global) -> Result<NameList, AllocError>
    ensures { IfOk result (λ names. length names ≡ 2) }
{
    let mut names = Items::new(alloc);
    names.push(Name::numbered(alloc, b'a', 0)?)?;
    names.push(Name::numbered(alloc, b'a', 1)?)?;
    Ok(names)
}

/// The sum, the carry, and the carry's opposite.
fn three_tables(alloc: Global) -> Result<TableList, AllocError>
    ensures { IfOk result (λ tables. length tables ≡ 3) }
{
    let mut tables = Items::new(alloc);
    let sum = two_rows(alloc, &[Mark::One, Mark::Zero], &[Mark::Zero, Mark::One])?;
    tables.push(table(alloc, 0, &[0, 1], sum)?)?;
    let carry = one_row(alloc, &[Mark::One, Mark::One])?;
    tables.push(table(alloc, 1, &[0, 1], carry)?)?;
    let opposite = one_row(alloc, &[Mark::Zero])?;
    tables.push(table(alloc, 2, &[3], opposite)?)?;
    Ok(tables)
}

/// The net of the three tables, which all are outputs.
fn half_adder(alloc: Global) -> Result<Net, AllocError>
    ensures inputs { IfOk result (λ n. input_count n ≡ 2) }
    ensures tables { IfOk result (λ n. table_count n ≡ 3) }
    ensures outputs { IfOk result (λ n. length n.outputs ≡ 3) }
{
    let model = Name::numbered(alloc, b'm', 0)?;
    let outputs = SignalList::from_slice(alloc, &[2, 3, 4])?;
    let names = two_names(alloc)?;
    let tables = three_tables(alloc)?;
    match Net::from_parts(alloc, model, names, tables, outputs) {
        Ok(net) => Ok(net),
        Err(_) => Err(AllocError),
    }
}

/// The first of `count` patterns at which the graph's literal of signal `s` is true.
fn first_in_graph(alloc: Global, count: u64, s: usize) -> Result<Option<u64>, AllocError>
    requires { s < 5 }
{
    let net = half_adder(alloc)?;
    let made = from_net(alloc, &net)?;
    let patterns = patterns(alloc, count)?;
    let mut sim = Sim::reserve(alloc, &made.graph, &patterns)?;
    sim.run(&made.graph, &patterns);
    first_true(alloc, &sim, made.literals[s], count)
}

/// The first of `count` patterns at which signal `s` is true.
fn first_in_net(alloc: Global, count: u64, s: Signal) -> Result<Option<u64>, AllocError>
    requires { s < 5 }
{
    let net = half_adder(alloc)?;
    let patterns = patterns(alloc, count)?;
    let mut sim = FlipSim::reserve(alloc, &net, &patterns)?;
    sim.run(&net, &patterns);
    Ok(first_set(sim.signal(s), count))
}

/// The first of `count` patterns at which an output is true, where the carry's table is turned over.
fn first_flipped(alloc: Global, count: u64, output: u32) -> Result<Option<u64>, AllocError>
    requires { output < 3 }
{
    let net = half_adder(alloc)?;
    let patterns = patterns(alloc, count)?;
    let mut sim = FlipSim::reserve(alloc, &net, &patterns)?;
    sim.run(&net, &patterns);
    sim.run_flipped(&net, 1);
    Ok(first_set(sim.flipped(output), count))
}

#[test]
fn graph_of_the_half_adder(rt: HostRuntime) -> Result<(), Fail> {
    assert_eq!(rt; first_in_graph(rt.alloc(), 513, 2)?, None);
    assert_eq!(rt; first_in_graph(rt.alloc(), 1, 3)?, Some(0));
    assert_eq!(rt; first_in_graph(rt.alloc(), 511, 3)?, Some(510));
    assert_eq!(rt; first_in_graph(rt.alloc(), 512, 3)?, Some(511));
    assert_eq!(rt; first_in_graph(rt.alloc(), 513, 3)?, Some(512));
    assert_eq!(rt; first_in_graph(rt.alloc(), 0, 3)?, None);
    Ok(())
}

#[test]
fn rows_of_the_half_adder(rt: HostRuntime) -> Result<(), Fail> {
    assert_eq!(rt; first_in_net(rt.alloc(), 0, 3)?, None);
    assert_eq!(rt; first_in_net(rt.alloc(), 513, 2)?, None);
    assert_eq!(rt; first_in_net(rt.alloc(), 513, 3)?, Some(512));
    assert_eq!(rt; first_in_net(rt.alloc(), 513, 4)?, Some(0));
    Ok(())
}

#[test]
fn the_carry_is_turned_over(rt: HostRuntime) -> Result<(), Fail> {
    assert_eq!(rt; first_flipped(rt.alloc(), 513, 0)?, None);
    assert_eq!(rt; first_flipped(rt.alloc(), 513, 1)?, Some(0));
    assert_eq!(rt; first_flipped(rt.alloc(), 513, 2)?, Some(512));
    assert_eq!(rt; first_flipped(rt.alloc(), 0, 1)?, None);
    Ok(())
}
