//! The clauses of the half adder.
use crate::nets::{HALF_ADDER, net};
use cnf_core::clause::ClauseList;
use cnf_core::of_net::of_net;
use std::test::Fail;

/// The variables 1 to 4 are a, b, s and c; 5 and 6 are the rows of s, and 7 is that of c.
const CLAUSES: [&[i32]; 14] = [
    &[-5, 1],
    &[-5, -2],
    &[5, -1, 2],
    &[-6, -1],
    &[-6, 2],
    &[6, 1, -2],
    &[-5, 3],
    &[-6, 3],
    &[-3, 5, 6],
    &[-7, 1],
    &[-7, 2],
    &[7, -1, -2],
    &[-7, 4],
    &[-4, 7],
];

fn are_clauses(clauses: &ClauseList, wanted: &[&[i32]]) -> bool {
    if clauses.len() != wanted.len() {
        return false;
    }
    for (i, literals) in wanted.iter().enumerate() {
        if clauses.get(i).as_slice() != *literals {
            return false;
        }
    }
    true
}

#[test]
fn clauses_of_the_half_adder(rt: HostRuntime) -> Result<(), Fail> {
    let half_adder = net(rt.alloc(), HALF_ADDER)?;
    let cnf = of_net(rt.alloc(), &half_adder)?;
    assert_eq!(rt; cnf.vars(), 7);
    assert!(rt; are_clauses(cnf.clauses(), &CLAUSES));
    Ok(())
}
