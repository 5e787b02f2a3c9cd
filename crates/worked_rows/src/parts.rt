//! Parts of nets with the inputs a and b, accepted or refused for the first reason, and which tables read
//! which.
use crate::nets::{HALF_ADDER, net};
use net_core::items::{Items, TableList};
use net_core::mark::Mark;
use net_core::name::{Name, NameRefusal};
use net_core::net::Net;
use net_core::refusal::NetRefusal;
use net_core::row::rows_of;
use net_core::table::Table;
use std::alloc::Global;
use std::test::Fail;

/// A table with the value of its pin.
fn buffer(alloc: Global, name: &[u8], pin: u32) -> Result<Table, NameRefusal> {
    let name = Name::new(alloc, name)?;
    let pins = Items::from_slice(alloc, &[pin])?;
    let rows = rows_of(alloc, &[[Mark::One]])?;
    Ok(Table::new(name, pins, rows, true))
}

/// The net of these tables, each with its name and its pin, and of `outputs` outputs, each of which is the
/// first table.
fn net_of_parts(
    alloc: Global,
    buffers: &[(&[u8], u32)],
    outputs: usize,
) -> Result<Result<Net, NetRefusal>, Fail> {
    let mut inputs = Items::new(alloc);
    inputs.push(Name::new(alloc, b"a")?)?;
    inputs.push(Name::new(alloc, b"b")?)?;
    let mut tables = TableList::new(alloc);
    for (name, pin) in buffers {
        tables.push(buffer(alloc, name, *pin)?)?;
    }
    let outputs = Items::from_slice(alloc, &vec![in alloc; 2; outputs]?)?;
    if tables.len() > 9 {
        return Err(Fail::new("too many tables"));
    }
    let model = Name::new(alloc, b"m")?;
    Ok(Net::from_parts(alloc, model, inputs, tables, outputs))
}

/// Whether the parts make a net, or are refused with this text.
fn is_told(
    alloc: Global,
    buffers: &[(&[u8], u32)],
    outputs: usize,
    wanted: &str,
) -> Result<bool, Fail> {
    let told = match net_of_parts(alloc, buffers, outputs)? {
        Ok(_) => return Ok(wanted == "a net"),
        Err(refusal) => refusal.to_string(alloc)?,
    };
    Ok(told.as_str() == wanted)
}

#[test]
fn parts_of_nets(rt: HostRuntime) -> Result<(), Fail> {
    let cases: [(&[(&[u8], u32)], usize, &str); 7] = [
        (&[(b"y", 3), (b"z", 0)], 1, "a net"),
        (&[(b"y", 3), (b"z", 2)], 1, "signal 2 depends on a cycle"),
        (
            &[(b"y", 3), (b"z", 2), (b"r", 9)],
            1,
            "signal 9 is not there",
        ),
        (&[(b"y", 3), (b"z", 2), (b"r", 9)], 0, "no output"),
        (
            &[(b"y", 3), (b"z", 2), (b"r", 9), (b"b", 0)],
            0,
            "a name stands twice",
        ),
        (&[(b"y", 0)], 64, "a net"),
        (&[(b"y", 0)], 65, "too many"),
    ];
    for (buffers, outputs, wanted) in cases {
        assert!(rt; is_told(rt.alloc(), buffers, outputs, wanted)?, "{wanted}");
    }
    Ok(())
}

/// Whether a signal of the half adder depends on its sum.
fn reads_the_sum(alloc: Global, s: u32) -> Result<bool, Fail> {
    let half_adder = net(alloc, HALF_ADDER)?;
    if s >= half_adder.signals() || half_adder.tables() == 0 {
        return Err(Fail::new("no signal of the half adder"));
    }
    Ok(half_adder.depends(s, 0)?)
}

#[test]
fn readers_of_the_sum(rt: HostRuntime) -> Result<(), Fail> {
    assert!(rt; reads_the_sum(rt.alloc(), 2)?);
    assert!(rt; !reads_the_sum(rt.alloc(), 3)?);
    Ok(())
}
