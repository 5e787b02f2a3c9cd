//! Decisions: which open variable is given a value next, and which value.
//!
//! The order of the variables proposes a variable, which is tried. Where the order proposes none, the least
//! open variable is taken, so the search is complete whatever the order holds.
ghost use Rattle.std.specs.Prelude.{◌≡◌, ◌<◌, ◌^◌, IfSome, IsNone};
ghost use Rattle.proof_semantics.specs.Clauses.{IsLiteralOf};
ghost use Rattle.cdcl_core.specs.Decided.{IsDecision, IsFull};

use crate::decision_order::Order;
use crate::literal::Literal;
use crate::trail::Trail;

/// The literal, where it is open.
pub fn if_open(trail: &Trail, literal: Literal) -> Option<Literal>
    requires { IsLiteralOf trail.now.variables literal }
    ensures { IfSome result (IsDecision trail.now) }
{
    if trail.is_open(literal) {
        Some(literal)
    } else {
        None
    }
}

/// The first open variable of the order, with the value that it had last. It may be None where some variable
/// is open.
fn preferred(trail: &Trail, order: &mut Order) -> Option<Literal>
    requires small { trail.now.variables < 2 ^ 31 }
    requires variables { order.old ≡ trail.now.variables }
    ensures some { IfSome result (IsDecision trail.now) }
    ensures order { order.new ≡ order.old }
{
    let mut variable = order.search();
    'along: for _ in 0..trail.variables() {
        if variable == 0 {
            break;
        }
        let literal = Literal::of(variable, order.value(variable));
        if trail.is_open(literal) {
            order.set_search(variable);
            return Some(literal);
        }
        variable = order.next(variable);
    }
    order.set_search(0);
    None
}

/// The least open variable up to `inputs`, with the value that it had last.
fn lowest(trail: &Trail, order: &Order, inputs: u32) -> Option<Literal>
    requires small { trail.now.variables < 2 ^ 31 }
    requires variables { order.now ≡ trail.now.variables }
    ensures { IfSome result (IsDecision trail.now) }
{
    for v in 0..inputs.min(trail.variables()) {
        let literal = Literal::of(v + 1, order.value(v + 1));
        if trail.is_open(literal) {
            return Some(literal);
        }
    }
    None
}

/// The literal that makes the least open variable false.
fn least(trail: &Trail) -> Option<Literal>
    requires { trail.now.variables < 2 ^ 31 }
    ensures some { IfSome result (IsDecision trail.now) }
    ensures none { IsNone result → IsFull trail.now }
{
    for v in 0..trail.variables() {
        let literal = Literal::of(v + 1, false);
        if trail.is_open(literal) {
            return Some(literal);
        }
    }
    None
}

/// An open literal, of the least open variable up to `inputs` where there is one; or None where each variable
/// has a value.
pub fn decide(trail: &Trail, order: &mut Order, inputs: u32) -> Option<Literal>
    requires small { trail.now.variables < 2 ^ 31 }
    requires variables { order.old ≡ trail.now.variables }
    ensures some { IfSome result (IsDecision trail.now) }
    ensures none { IsNone result → IsFull trail.now }
    ensures order { order.new ≡ order.old }
{
    if let Some(literal) = lowest(trail, order, inputs) {
        return Some(literal);
    }
    match preferred(trail, order) {
        Some(literal) => Some(literal),
        None => least(trail),
    }
}
