//! The literals of a net's signals.
ghost use Rattle.std.specs.Prelude.{◌≡◌, ℕ, ◌+◌, ◌^◌, ◌<◌, ◌≤◌, length, map, slice_index_or, sum_by, IfOk};
ghost use Rattle.std.specs.List.{range_with_len};
ghost use Rattle.semantics.specs.Net.{input_count, table_count, signal_count};
ghost use Rattle.aiger_semantics.specs.NetCircuit.{table_ands, first_variable, input_literal, signal_literal};

use crate::lines::{table_ands, table_literal};
use crate::literal::Literal;
use net_core::net::Net;
use std::alloc::{AllocError, Global};

/// The first variable of each table's lines.
pub(crate) fn first_variables(alloc: Global, net: &Net) -> Result<Vec<u32>, AllocError>
    requires fits { input_count net.now + 1 + sum_by table_ands net.now.tables ≤ 2 ^ 31 }
    ensures { IfOk result (λ firsts. firsts.items
        ≡ map (first_variable (input_count net.now) net.now.tables)
        (range_with_len 0 (table_count net.now))) }
{
    let mut firsts = Vec::new(alloc);
    let mut next = net.inputs() + 1;
    for t in 0..net.tables() {
        firsts.push(next)?;
        next += table_ands(net.table(t));
    }
    Ok(firsts)
}

/// The literals of `inputs` inputs, in a list with room for `room` signals.
fn input_literals(alloc: Global, inputs: u32, room: usize) -> Result<Vec<Literal>, AllocError>
    requires few { inputs < 2 ^ 31 }
    requires room { inputs ≤ room }
    ensures room { IfOk result (λ literals. length literals.items ≡ room) }
    ensures inputs { IfOk result
        (λ literals. (s : ℕ) → s < inputs → slice_index_or literals.items s 0 ≡ input_literal s) }
{
    let mut literals = vec![in alloc; 0; room]?;
    for i in 0..inputs {
        literals[i as usize] = 2 * (i + 1);
    }
    Ok(literals)
}

/// The literal of each signal.
pub(crate) fn signal_literals(
    alloc: Global,
    net: &Net,
    firsts: &[u32],
) -> Result<Vec<Literal>, AllocError>
    requires fits { input_count net.now + 1 + sum_by table_ands net.now.tables ≤ 2 ^ 31 }
    requires firsts { firsts.now
        ≡ map (first_variable (input_count net.now) net.now.tables) (range_with_len 0 (table_count net.now)) }
    ensures count { IfOk result (λ literals. length literals.items ≡ signal_count net.now) }
    ensures values { IfOk result (λ literals. (s : ℕ) → s < signal_count net.now
        → slice_index_or literals.items s 0 ≡ signal_literal (input_count net.now) net.now.tables s) }
{
    let inputs = net.inputs();
    let mut literals = input_literals(alloc, inputs, net.signals() as usize)?;
    let mut asked = Vec::new(alloc);
    let mut opposites = Vec::new(alloc);
    for t in net.order() {
        let at = *t as usize;
        let literal = table_literal(
            net.table(*t),
            &literals,
            firsts[at],
            &mut asked,
            &mut opposites,
        )?;
        literals[inputs as usize + at] = literal;
    }
    Ok(literals)
}
