//! A refutation by cases: the negation of each input vector is derived, and then the clauses are joined two
//! at a time.
ghost use Rattle.std.specs.Prelude.{◌≡◌, ℕ, ◌+◌, ◌-◌, ◌<◌, ◌≤◌, ◌^◌, Bool, false, List, [], ◌∷◌, ◌++◌};
ghost use Rattle.std.specs.Prelude.{length, take, sum_by, IfOk, OnOk};
ghost use Rattle.semantics.specs.Net.{input_count, signal_count};
ghost use Rattle.semantics.specs.Value.{outputs_of};
ghost use Rattle.proof_semantics.specs.Formula.{goal_of};
ghost use Rattle.proof_semantics.specs.Logs.{Refutes, IsDerivation};
ghost use Rattle.case_tree.specs.Cases.{negation_from, negation, join_step, step_count};
ghost use Rattle.case_tree.specs.Behind.{AreValuesBehind};
ghost use Rattle.case_tree.specs.Rooms.{FitsRoom};
ghost use Rattle.case_tree.specs.Trees.{IsTree, tree_step, tree_cases};

use crate::front_lanes::{lane_of, set_values_behind};
use crate::hints::{Room, first_ids, room_for, vector_hints};
use lane_bits::patterns::Patterns;
use lane_nets::lanes::set_lane;
use net_core::items::Items;
use net_core::net::Net;
use proof_parts::clause::Lits;
use proof_parts::cnf::Cnf;
use proof_parts::literal::literal_at;
use proof_parts::log::{Item, Log, Step};
use semantics::limits::MOST_CASE_INPUTS;
use std::alloc::{AllocError, Global};

/// The number of inputs all of whose vectors stand side by side in a word of 64 bits.
const SIDE_BY_SIDE: u32 = 6;

/// The clause that is false exactly where the first inputs have these bits.
fn negation(alloc: Global, front: &[bool]) -> Result<Lits, AllocError>
    requires { length front.now ≤ MOST_CASE_INPUTS }
    ensures { IfOk result (λ clause. clause ≡ negation front.now) }
{
    let mut clause = Lits::new(alloc);
    for (i, bit) in front.iter().enumerate() {
        clause.push(literal_at(i as u32, !*bit))?;
    }
    Ok(clause)
}

/// A net, an order of its tables, the ids of the tables' first clauses, and all vectors of the net's last
/// inputs, which are evaluated side by side; and where memory comes from.
#[derive(Drop)]
struct Tree<'a> {
    alloc: Global,
    net: &'a Net,
    order: &'a [u32],
    firsts: &'a [u64],
    rest: &'a Patterns,
}

/// The steps so far, and the id of the last clause that is there.
#[derive(Drop)]
struct CaseLog {
    log: Log,
    last: u64,
}

/// The step that derives the negation of the input vector `x`; `words` are the values behind the first bits
/// of `x`.
fn vector_step(
    tree: &Tree,
    id: u64,
    words: &[u64],
    room: &mut Room,
    x: &[bool],
) -> Result<Step, AllocError>
    requires tree { IsTree tree.now }
    requires width { length x.now ≡ input_count tree.now.net.now }
    requires values { AreValuesBehind tree.now.net.now (take (length x.now - tree.now.rest.now.inputs) x.now)
        words.now }
    requires words { length words.now ≡ signal_count tree.now.net.now }
    requires room { FitsRoom tree.now.net.now room.old }
    ensures step { IfOk result
        (λ s. s ≡ tree_step tree.now id x.now) }
    ensures room { FitsRoom tree.now.net.now room.new }
{
    let front = x.len() - tree.rest.inputs() as usize;
    set_lane(words, lane_of(&x[front..]), &mut room.values);
    let hints = vector_hints(tree.alloc, tree.net, tree.order, tree.firsts, room)?;
    Ok(Step::new(id, negation(tree.alloc, x)?, hints))
}

/// Computes the values behind the first bits of `x`, once `depth` is the number of these bits.
fn reach_values(tree: &Tree, x: &[bool], depth: usize, words: &mut [u64])
    requires tree { IsTree tree.now }
    requires width { length x.now ≡ input_count tree.now.net.now }
    requires words { length words.old ≡ signal_count tree.now.net.now }
    requires there { length x.now - tree.now.rest.now.inputs < depth
        → AreValuesBehind tree.now.net.now (take (length x.now - tree.now.rest.now.inputs) x.now) words.old }
    ensures values { length x.now - tree.now.rest.now.inputs ≤ depth
        → AreValuesBehind tree.now.net.now (take (length x.now - tree.now.rest.now.inputs) x.now) words.new }
    ensures same { length x.now - tree.now.rest.now.inputs < depth → words.new ≡ words.old }
{
    let front = x.len() - tree.rest.inputs() as usize;
    if depth == front {
        set_values_behind(tree.net, &x[..front], tree.rest, words);
    }
}

/// The step that joins the clauses with two ids, which differ in the sign of the literal behind this front.
fn join_step(
    alloc: Global,
    id: u64,
    front: &[bool],
    half: u64,
    other: u64,
) -> Result<Step, AllocError>
    requires { length front.now ≤ MOST_CASE_INPUTS }
    ensures { IfOk result (λ s. s ≡ join_step id front.now half other) }
{
    let mut hints = Items::new(alloc);
    hints.push(half)?;
    hints.push(other)?;
    Ok(Step::new(id, negation(alloc, front)?, hints))
}

/// Adds the steps that derive the negation of the first `depth` bits of `x`. `x` holds the bits on the way
/// down, and `words` the values behind its first bits.
fn push_cases(
    tree: &Tree,
    words: &mut [u64],
    room: &mut Room,
    x: &mut [bool],
    depth: usize,
    cases: &mut CaseLog,
) -> Result<(), AllocError>
    requires tree { IsTree tree.now }
    requires width { length x.old ≡ input_count tree.now.net.now }
    requires depth { depth ≤ length x.old }
    requires ids { cases.old.last + step_count (length x.old - depth) < 2 ^ 63 }
    requires words { length words.old ≡ signal_count tree.now.net.now }
    requires values { length x.old - tree.now.rest.now.inputs < depth
        → AreValuesBehind tree.now.net.now (take (length x.old - tree.now.rest.now.inputs) x.old) words.old }
    requires room { FitsRoom tree.now.net.now room.old }
    ensures log { OnOk result (cases.new.log ≡ cases.old.log
        ++ tree_cases tree.now (length x.old - depth) (take depth x.old) cases.old.last) }
    ensures last { OnOk result (cases.new.last ≡ cases.old.last + step_count (length x.old - depth)) }
    ensures front { OnOk result (take depth x.new ≡ take depth x.old) }
    ensures words { OnOk result (length x.old - tree.now.rest.now.inputs < depth → words.new ≡ words.old) }
    ensures room { FitsRoom tree.now.net.now room.new }
{
    reach_values(tree, x, depth, words);
    if depth == x.len() {
        let id = cases.last + 1;
        cases
            .log
            .push(Item::Add(vector_step(tree, id, words, room, x)?))?;
        cases.last = id;
        return Ok(());
    }
    x[depth] = false;
    push_cases(tree, words, room, x, depth + 1, cases)?;
    let half = cases.last;
    x[depth] = true;
    push_cases(tree, words, room, x, depth + 1, cases)?;
    let other = cases.last;
    let id = other + 1;
    cases.log.push(Item::Add(join_step(tree.alloc, id, &x[..depth], half, other)?))?;
    cases.last = id;
    Ok(())
}

/// The steps behind the id `last` that derive the empty clause: the steps of every input vector, and their
/// joins.
fn all_cases(tree: &Tree, last: u64) -> Result<Log, AllocError>
    requires tree { IsTree tree.now }
    requires ids { last + step_count (input_count tree.now.net.now) < 2 ^ 63 }
    ensures { IfOk result
        (λ log. log ≡ tree_cases tree.now (input_count tree.now.net.now) [] last) }
{
    let alloc = tree.alloc;
    let mut x = vec![in alloc; false; tree.net.inputs() as usize]?;
    let mut words = vec![in alloc; 0; tree.net.signals() as usize]?;
    let mut room = room_for(alloc, tree.net)?;
    let mut cases = CaseLog {
        log: Items::new(alloc),
        last,
    };
    push_cases(tree, &mut words, &mut room, &mut x, 0, &mut cases)?;
    Ok(cases.log)
}

/// How many clauses a formula has.
fn clause_count(goal: &Cnf) -> u64
    ensures value { result ≡ length goal.now.clauses }
    ensures few { length goal.now.clauses < 2 ^ 58 }
{
    goal.clauses().as_slice().len() as u64
}

/// A log that refutes the goal of a net whose one output is 0 at every input vector: one step for each input
/// vector and one for each front of a vector, so at most 65,535 steps.
pub fn refute(alloc: Global, joint: &Net, goal: &Cnf) -> Result<Log, AllocError>
    requires few_inputs { input_count joint.now ≤ MOST_CASE_INPUTS }
    requires its_goal { goal.now ≡ goal_of joint.now }
    requires always_0 { (x : List Bool) → length x ≡ input_count joint.now
        → outputs_of joint.now x ≡ false ∷ [] }
    ensures refutes { IfOk result (λ log. Refutes goal.now.clauses log) }
    ensures derivation { IfOk result (λ log. IsDerivation goal.now log) }
{
    let last = clause_count(goal);
    let inputs = joint.inputs();
    let firsts = first_ids(alloc, joint)?;
    let rest = Patterns::exhaustive(alloc, inputs.min(SIDE_BY_SIDE))?;
    let tree = Tree {
        alloc,
        net: joint,
        order: joint.order(),
        firsts: firsts.as_slice(),
        rest: &rest,
    };
    all_cases(&tree, last)
}
