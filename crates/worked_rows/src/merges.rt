//! The merges of the half adder against itself: each table of the second copy is made equal to that of the
//! first.
use crate::metrics::ABSOLUTE;
use crate::nets::{HALF_ADDER, net};
use cnf_core::log::{Item, Log};
use lrat_check::checker::Checker;
use merge_log::merges::merges;
use miter::level::{Miter, joint_miter};
use net_errors::compared::Compared;
use net_errors::ports::same_ports;
use semantics::limits::MOST_OUTPUTS;
use std::alloc::Global;
use std::test::Fail;

/// Whether some step has the clause of exactly these two literals.
fn adds(log: &Log, first: i32, second: i32) -> bool {
    log.as_slice().iter().any(|item| match item {
        Item::Add(step) => {
            let clause = step.lits().as_slice();
            clause.len() == 2 && clause.contains(&first) && clause.contains(&second)
        }
        Item::Remove(_) => false,
    })
}

/// Whether the checker accepts each item of the log.
fn is_accepted(alloc: Global, miter: &Miter, log: &Log) -> Result<bool, Fail> {
    let mut checker = Checker::new(alloc, &miter.formula)?;
    for item in log.as_slice() {
        match item {
            Item::Add(step) => {
                if checker.step(step).is_err() {
                    return Ok(false);
                }
            }
            Item::Remove(ids) => checker.remove(ids),
        }
    }
    Ok(true)
}

/// Whether the copies of the sum and of the carry are made equal to the first ones, by steps that a checker
/// accepts.
fn tables_are_merged(alloc: Global) -> Result<bool, Fail> {
    let half_adder = net(alloc, HALF_ADDER)?;
    if half_adder.outputs() as usize > MOST_OUTPUTS || !same_ports(&half_adder, &half_adder) {
        return Ok(false);
    }
    let nets = Compared::new(&half_adder, &half_adder);
    let miter = joint_miter(alloc, &nets, ABSOLUTE, 0)?;
    let log = merges(alloc, &miter.net, &miter.formula)?;
    let sum = adds(&log, 5, -3) && adds(&log, -5, 3);
    let carry = adds(&log, 6, -4) && adds(&log, -6, 4);
    Ok(sum && carry && is_accepted(alloc, &miter, &log)?)
}

#[test]
fn merges_of_the_half_adder(rt: HostRuntime) -> Result<(), Fail> {
    assert!(rt; tables_are_merged(rt.alloc())?);
    Ok(())
}
