//! Weights that are found and such that are not, and the effect of a change that is a sum only a step behind
//! the changed table.
ghost use Rattle.std.specs.Prelude.{◌≡◌, length};

use crate::effect::{Changed, Words, effect_of};
use crate::samples::Samples;
use crate::term::Term;
use crate::weights::{Column, Difference, solve};
use aig_core::graph::Aig;
use net_core::items::{Items, Signal, SignalList, TableList};
use net_core::mark::Mark;
use net_core::name::{Name, numbered_names};
use net_core::net::Net;
use net_core::row::Row;
use net_core::table::Table;
use std::alloc::{AllocError, Global};
use std::test::Fail;

/// The values of a graph of three inputs, whose literals are 2, 4 and 6, and of the conjunction 8 of two.
fn three_inputs(alloc: Global) -> Result<Samples, AllocError> {
    let mut g = Aig::new(alloc, 3);
    let first = g.input(0);
    let second = g.input(1);
    let _both = g.and(first, second)?;
    let mut samples = Samples::new(alloc);
    samples.extend(&g)?;
    Ok(samples)
}

/// Three times the first input less the second, less five times the second less the third, as a sum of these
/// two columns, or of the last alone.
fn weights(alloc: Global, both: bool) -> Result<Option<Vec<u32>>, AllocError> {
    let samples = three_inputs(alloc)?;
    let first = Column::new(&samples, 2, 4);
    let second = Column::new(&samples, 4, 6);
    let mut difference = Difference::new(alloc)?;
    difference.add(&first, 3);
    difference.add(&second, 5u32.wrapping_neg());
    let mut columns = Vec::new(alloc);
    if both {
        columns.push(first)?;
    }
    columns.push(second)?;
    solve(alloc, &columns, &difference)
}

/// A table of plane 1 with a single row of ones.
fn table(alloc: Global, number: u64, pins: &[Signal], ones: &[Mark]) -> Result<Table, AllocError>
    requires { length ones.now ≡ length pins.now }
{
    let name = Name::numbered(alloc, b't', number)?;
    let mut rows = Items::new(alloc);
    rows.push(Row::from_slice(alloc, ones)?)?;
    let pins = SignalList::from_slice(alloc, pins)?;
    Ok(Table::new(name, pins, rows, true))
}

/// A table that is the first of two inputs, and the conjunction of it and the second, which is the output.
fn two_tables(alloc: Global) -> Result<Net, AllocError> {
    let model = Name::numbered(alloc, b'm', 0)?;
    let inputs = numbered_names(alloc, b'a', 2)?;
    let mut tables = TableList::new(alloc);
    tables.push(table(alloc, 0, &[0], &[Mark::One])?)?;
    tables.push(table(alloc, 1, &[2, 1], &[Mark::One, Mark::One])?)?;
    let outputs = SignalList::from_slice(alloc, &[3])?;
    match Net::from_parts(alloc, model, inputs, tables, outputs) {
        Ok(net) => Ok(net),
        Err(_) => Err(AllocError),
    }
}

/// The effect of a constant 0 in the place of the first table.
fn effect(alloc: Global) -> Result<Option<Vec<Term>>, AllocError> {
    let net = two_tables(alloc)?;
    let samples = three_inputs(alloc)?;
    let changed = Changed {
        after: &net,
        signal: 2,
        before: &[2, 4, 2, 8],
        behind: &[2, 4, 0, 0],
    };
    let words = Words {
        before: &[8],
        behind: &[0],
        weight: 1 << 30,
    };
    effect_of(alloc, &samples, &changed, &words)
}

#[test]
fn weights_are_found(rt: HostRuntime) -> Result<(), Fail> {
    let Some(found) = weights(rt.alloc(), true)? else {
        return Err(Fail::new("no weights"));
    };
    assert_eq!(rt; found.as_slice(), [3, 5u32.wrapping_neg()].as_slice());
    Ok(())
}

#[test]
fn too_few_columns_make_nothing(rt: HostRuntime) -> Result<(), Fail> {
    assert!(rt; weights(rt.alloc(), false)?.is_none());
    Ok(())
}

#[test]
fn the_effect_is_that_of_the_reader(rt: HostRuntime) -> Result<(), Fail> {
    let Some(found) = effect(rt.alloc())? else {
        return Err(Fail::new("no sum"));
    };
    let [plus, minus] = found.as_slice() else {
        return Err(Fail::new("not two terms"));
    };
    assert_eq!(rt; plus.literal, 8);
    assert_eq!(rt; plus.weight, 1 << 30);
    assert_eq!(rt; minus.literal, 0);
    assert_eq!(rt; minus.weight, 3 << 30);
    Ok(())
}
