//! Queries on a multiplier and on a conjunction, each against an approximation of it.
ghost use Rattle.semantics.specs.Net.{IsSmall};

use crate::metrics::{ABSOLUTE, HAMMING};
use crate::nets::{move_of, net, product};
use chain_semantics::moves::Move;
use cnf_core::cnf::Cnf;
use cnf_core::log::{Item, Log};
use level_answers::query::Exceed;
use lrat_check::checker::Checker;
use miter::level::miter_of;
use net_core::net::Net;
use net_errors::compared::Compared;
use net_errors::ports::same_ports;
use net_moves::apply::apply;
use progress::progress::Silent;
use proof_semantics::constraint::Constraint;
use semantics::limits::MOST_OUTPUTS;
use semantics::metric::Metric;
use std::alloc::Global;
use std::test::Fail;
use worst_case::exceeds::exceeds;

/// The conjunction of 16 inputs as one table.
const CONJUNCTION: &[u8] =
    b".model conj\n.inputs x0 x1 x2 x3 x4 x5 x6 x7 x8 x9 x10 x11 x12 x13 x14 x15\n.outputs y\n\
    .names x0 x1 x2 x3 x4 x5 x6 x7 x8 x9 x10 x11 x12 x13 x14 x15 y\n1111111111111111 1\n.end\n";

/// The conjunction of 16 inputs, over two halves.
const TREE: &[u8] =
    b".model tree\n.inputs x0 x1 x2 x3 x4 x5 x6 x7 x8 x9 x10 x11 x12 x13 x14 x15\n.outputs y\n\
    .names x0 x1 x2 x3 x4 x5 x6 x7 p\n11111111 1\n.names x8 x9 x10 x11 x12 x13 x14 x15 q\n11111111 1\n\
    .names p q y\n11 1\n.end\n";

/// The tree without the last input.
const SHORT: &[u8] =
    b".model short\n.inputs x0 x1 x2 x3 x4 x5 x6 x7 x8 x9 x10 x11 x12 x13 x14 x15\n.outputs y\n\
    .names x0 x1 x2 x3 x4 x5 x6 x7 p\n11111111 1\n.names x8 x9 x10 x11 x12 x13 x14 q\n1111111 1\n\
    .names p q y\n11 1\n.end\n";

/// The net, or the one with the constant 0 in the place of its first output's table.
fn approximation(alloc: Global, net: &Net, is_even: bool) -> Result<Net, Fail>
    requires { IsSmall net.now }
{
    if !is_even {
        return Ok(net.copy()?);
    }
    let first = net.output_signals().first().copied().unwrap_or(0);
    let t = first.saturating_sub(net.inputs());
    match move_of(alloc, net, Move::Const { t, value: false })? {
        Some(a_move) => Ok(apply(alloc, net, a_move)?),
        None => Err(Fail::new("no move of the net")),
    }
}

/// Whether the checker accepts the log as a refutation.
pub fn accepts(alloc: Global, goal: &Cnf, log: &Log) -> Result<bool, Fail> {
    let mut checker = Checker::new(alloc, goal)?;
    for item in log.as_slice() {
        match item {
            Item::Add(step) => {
                if checker.step(step).is_err() {
                    return Ok(false);
                }
            }
            Item::Remove(ids) => checker.remove(ids),
        }
    }
    Ok(checker.done())
}

/// Whether the bits are those of the pattern, in which `-` stands for both.
fn fits(bits: &[bool], pattern: &[u8]) -> bool {
    bits.len() == pattern.len()
        && bits.iter().zip(pattern).all(|(bit, wanted)| *wanted == b'-'
            || *bit == (*wanted == b'1'))
}

/// Whether the query at level 0 is answered as wanted: by an input that fits the pattern, by `Never` where
/// the pattern is empty, or as spent where that may be.
fn is_answered(
    alloc: Global,
    nets: (&Net, &Net),
    metric: Metric,
    limit: u64,
    over: &[u8],
    may_be_spent: bool,
) -> Result<bool, Fail> {
    let (exact, approx) = nets;
    if limit == 0 || exact.outputs() as usize > MOST_OUTPUTS || !same_ports(exact, approx) {
        return Ok(false);
    }
    let nets = Compared::new(exact, approx);
    let aim = Constraint {
        metric,
        bound: 0,
        limit,
    };
    match exceeds(alloc, &nets, aim, &mut Silent)? {
        Exceed::Over(x) => Ok(fits(x.as_slice(), over)),
        Exceed::Never(log) => {
            let goal = miter_of(alloc, &nets, metric, 0)?;
            Ok(over.is_empty() && accepts(alloc, &goal, &log)?)
        }
        Exceed::Spent(spent) => {
            Ok(may_be_spent && spent.log.len() as u64 == spent.merged.saturating_add(limit))
        }
    }
}

/// Whether the query on the multiplier against itself, or against the even one, is answered as wanted.
fn multiplier_is_answered(
    alloc: Global,
    is_even: bool,
    limit: u64,
    over: &[u8],
    may_be_spent: bool,
) -> Result<bool, Fail> {
    let exact = product(alloc)?;
    let approx = approximation(alloc, &exact, is_even)?;
    is_answered(
        alloc,
        (&exact, &approx),
        ABSOLUTE,
        limit,
        over,
        may_be_spent,
    )
}

#[test]
fn a_multiplier(rt: HostRuntime) -> Result<(), Fail> {
    let cases: [(bool, u64, &[u8], bool); 4] = [
        (true, 1, b"1----1----", true),
        (true, 2048, b"1----1----", false),
        (false, 1, b"", true),
        (false, 2048, b"", false),
    ];
    for (is_even, limit, over, may_be_spent) in cases {
        assert!(rt; multiplier_is_answered(rt.alloc(), is_even, limit, over, may_be_spent)?);
    }
    Ok(())
}

/// Whether the query on the conjunction against the net of a text is answered as wanted, and not spent.
fn conjunction_is_answered(alloc: Global, text: &[u8], over: &[u8]) -> Result<bool, Fail> {
    let exact = net(alloc, CONJUNCTION)?;
    let approx = net(alloc, text)?;
    is_answered(alloc, (&exact, &approx), HAMMING, 1000, over, false)
}

#[test]
fn a_conjunction(rt: HostRuntime) -> Result<(), Fail> {
    assert!(rt; conjunction_is_answered(rt.alloc(), TREE, b"")?);
    assert!(rt; conjunction_is_answered(rt.alloc(), SHORT, b"1111111111111110")?);
    Ok(())
}
