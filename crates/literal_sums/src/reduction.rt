//! Sums rewritten by the adders that are found in the graph.
//!
//! From the highest node down, a sum and its carry give way to the leaves below them, adder by adder. The
//! search may miss some; that each step keeps the sum is checked where the step is made. Source: reverse
//! engineering of arithmetic by functional matching, and backward rewriting.
ghost use Rattle.std.specs.Prelude.{IfOk};
ghost use Rattle.aig_core.specs.Grown.{Grows};
ghost use Rattle.literal_sums.specs.Sums.{AgreeAsSums};

use crate::adder::Adder;
use crate::finding::{Adders, Kind, MOST_ROLES, Role};
use crate::sum::Sum;
use crate::term::Term;
use crate::word::within;
use aig_core::graph::Aig;
use aig_core::literal::{Literal, is_negative, node_of, opposite};
use std::alloc::AllocError;

/// How many nodes of a sum are looked at.
const MOST_STEPS: u32 = 1000;

/// The highest weight of one place, whose double is 0.
const TOP: u32 = 1 << 31;

/// What an adder without a carry costs, and what a half adder does, beside their leaves.
const EXCLUSIVE_COST: u32 = 15;

const HALF_COST: u32 = 20;

/// An adder that a sum may go through by a weight, and what it costs. One that lacks its carry has the
/// constant false there.
#[derive(Clone, Copy, Drop)]
struct Choice {
    adder: Adder,
    weight: u32,
    cost: u32,
    lacks_carry: bool,
}

/// The conjunction of two literals, of which one without a node counts as false.
pub(crate) fn both(g: &mut Aig, a: Literal, b: Literal) -> Result<Literal, AllocError>
    ensures { Grows g.old g.new }
{
    let first = within(g, a);
    let second = within(g, b);
    g.and(first, second)
}

/// The disjunction of two literals.
pub(crate) fn either(g: &mut Aig, a: Literal, b: Literal) -> Result<Literal, AllocError>
    ensures { Grows g.old g.new }
{
    let none = both(g, opposite(a), opposite(b))?;
    Ok(opposite(none))
}

/// The literal that is true where two or more of three literals are.
pub(crate) fn majority(
    g: &mut Aig,
    a: Literal,
    b: Literal,
    c: Literal,
) -> Result<Literal, AllocError>
    ensures { Grows g.old g.new }
{
    let two = both(g, a, b)?;
    let one = either(g, a, b)?;
    let more = both(g, one, c)?;
    either(g, two, more)
}

/// The weight of a literal; that of one that is turned over is its node's, taken away.
fn weight_of(sum: &Sum, literal: Literal) -> u32 {
    if is_negative(literal) {
        sum.weight(opposite(literal)).wrapping_neg()
    } else {
        sum.weight(literal)
    }
}

/// The term of the highest node of a sum that is below a bound, beside the constant.
fn highest_below(sum: &Sum, bound: u32) -> Option<Term> {
    let mut highest = 0;
    let mut found = None;
    for term in sum.terms() {
        let node = node_of(term.literal);
        if node < bound && node > highest {
            highest = node;
            found = Some(*term);
        }
    }
    found
}

/// The cheaper choice, the second where they cost the same.
fn cheaper(one: Option<Choice>, other: Choice) -> Option<Choice> {
    match one {
        Some(choice) if choice.cost < other.cost => one,
        _ => Some(other),
    }
}

/// The choice of a sum and a carry over the same leaves, where they have the weights of an adder.
fn adder_choice(adders: &Adders, sum: &Sum, role: &Role, other: &Role) -> Option<Choice> {
    let adder = match role.form.kind {
        Kind::Sum => adders.adder(role, other),
        Kind::Carry => adders.adder(other, role),
    };
    let weight = weight_of(sum, adder.sum);
    let carried = weight_of(sum, adder.carry);
    if weight == 0 || carried == 0 || carried != weight.wrapping_add(weight) {
        return None;
    }
    let half = if adders.is_of_three(role.group) {
        0
    } else {
        HALF_COST
    };
    Some(Choice {
        adder,
        weight,
        cost: adders.cost(role.group) + half,
        lacks_carry: false,
    })
}

/// The choice of a sum alone, by the weight whose double is 0, so that a carry does not count.
fn exclusive_choice(adders: &Adders, role: &Role) -> Choice {
    let carry = adders.role(adders.last_of_group(role.group, Kind::Carry));
    let adder = match carry {
        Some(other) => adders.adder(role, &other),
        None => adders.adder_without_carry(role),
    };
    Choice {
        adder,
        weight: TOP,
        cost: adders.cost(role.group) + EXCLUSIVE_COST,
        lacks_carry: carry.is_none(),
    }
}

/// The cheapest of a choice and those of a role with each role of the other kind over the same leaves.
fn with_partners(adders: &Adders, sum: &Sum, role: &Role, best: Option<Choice>) -> Option<Choice> {
    let mut best = best;
    let mut at = adders.last_of_group(role.group, role.form.kind.other());
    for _ in 0..MOST_ROLES {
        let Some(other) = adders.role(at) else {
            return best;
        };
        if let Some(choice) = adder_choice(adders, sum, role, &other) {
            best = cheaper(best, choice);
        }
        at = other.before_of_group;
    }
    best
}

/// The cheapest of a choice and those of a term's node as a sum, or as a carry.
fn with_kind(
    adders: &Adders,
    sum: &Sum,
    term: Term,
    kind: Kind,
    best: Option<Choice>,
) -> Option<Choice> {
    let mut best = best;
    let mut at = adders.last_of_node(node_of(term.literal), kind);
    let alone = kind == Kind::Sum && term.weight == TOP;
    for _ in 0..MOST_ROLES {
        let Some(role) = adders.role(at) else {
            return best;
        };
        best = with_partners(adders, sum, &role, best);
        if alone {
            best = cheaper(best, exclusive_choice(adders, &role));
        }
        at = role.before_of_node;
    }
    best
}

/// The adder of a choice, whose carry is made where it lacks.
fn with_carry(g: &mut Aig, choice: &Choice) -> Result<Adder, AllocError>
    ensures { Grows g.old g.new }
{
    let mut adder = choice.adder;
    if choice.lacks_carry {
        adder.carry = majority(g, adder.first, adder.second, adder.third)?;
    }
    Ok(adder)
}

/// Goes through the best adder in which a term's node is a sum or a carry, if there is one.
fn go_through_node(
    g: &mut Aig,
    adders: &Adders,
    sum: &mut Sum,
    term: Term,
) -> Result<(), AllocError>
    ensures grows { Grows g.old g.new }
    ensures ok { IfOk result (λ _. AgreeAsSums g.new sum.new sum.old) }
{
    let sums = with_kind(adders, sum, term, Kind::Sum, None);
    if let Some(choice) = with_kind(adders, sum, term, Kind::Carry, sums) {
        let adder = with_carry(g, &choice)?;
        let _done = sum.go_through(g, &adder, choice.weight)?;
    }
    Ok(())
}

/// Rewrites a sum by the adders that are found in the graph, from the highest node down: each leads to lower
/// nodes alone, so none is looked at twice.
pub fn reduce(g: &mut Aig, adders: &mut Adders, sum: &mut Sum) -> Result<(), AllocError>
    ensures grows { Grows g.old g.new }
    ensures ok { IfOk result (λ _. AgreeAsSums g.new sum.new sum.old) }
{
    adders.extend(g)?;
    let mut bound = u32::MAX;
    for _ in 0..MOST_STEPS {
        let Some(term) = highest_below(sum, bound) else {
            return Ok(());
        };
        go_through_node(g, adders, sum, term)?;
        bound = node_of(term.literal);
    }
    Ok(())
}
