//! The clauses of a net, and its goal: that its output is true.
ghost use Rattle.std.specs.Prelude.{◌≡◌, ◌+◌, ◌<◌, ◌^◌, true, [], ◌∷◌, ◌++◌, length, IfOk, OnOk};
ghost use Rattle.semantics.specs.Net.{input_count};
ghost use Rattle.net_core.specs.Built.{IsBuilt};
ghost use Rattle.proof_semantics.specs.NetClauses.{literal_at, net_clauses};
ghost use Rattle.proof_semantics.specs.Variables.{variable_count};
ghost use Rattle.proof_semantics.specs.Formula.{formula_of, goal_of};

use crate::clause::{ClauseList, Lits};
use crate::cnf::Cnf;
use crate::literal::literal_at;
use crate::table_clauses::push_table_clauses;
use net_core::items::{Items, Signal};
use net_core::net::Net;
use std::alloc::{AllocError, Global};

/// Adds the clauses of a net, and returns the number of their variables.
#[tactic(auto, unfolding(proof_semantics::specs::NetClauses::net_clauses))]
fn push_net_clauses(alloc: Global, clauses: &mut ClauseList, net: &Net) -> Result<u32, AllocError>
    requires { variable_count (input_count net.now) net.now.tables < 2 ^ 31 }
    ensures pushed { OnOk result
        (clauses.new ≡ clauses.old ++ net_clauses (input_count net.now) net.now.tables) }
    ensures count { IfOk result
        (λ variables. variables ≡ variable_count (input_count net.now) net.now.tables) }
    ensures built { IsBuilt net.now }
{
    let mut first = net.signals();
    for t in 0..net.tables() {
        let table = net.table(t);
        push_table_clauses(alloc, clauses, net.inputs() + t, first, table)?;
        first += table.rows().len() as u32;
    }
    Ok(first)
}

/// Adds the clause that a signal is true.
fn push_unit_clause(
    alloc: Global,
    clauses: &mut ClauseList,
    signal: Signal,
) -> Result<(), AllocError>
    requires { signal + 1 < 2 ^ 31 }
    ensures { OnOk result (clauses.new ≡ clauses.old ++ (literal_at signal true ∷ []) ∷ []) }
{
    let mut clause = Lits::new(alloc);
    clause.push(literal_at(signal, true))?;
    clauses.push(clause)
}

/// The clauses of a net.
pub fn of_net(alloc: Global, net: &Net) -> Result<Cnf, AllocError>
    requires { variable_count (input_count net.now) net.now.tables < 2 ^ 31 }
    ensures { IfOk result (λ cnf. cnf ≡ formula_of net.now) }
{
    let mut clauses = Items::new(alloc);
    let variables = push_net_clauses(alloc, &mut clauses, net)?;
    Ok(Cnf::new(variables, clauses))
}

/// The clauses of a net with one output, and that its output is true.
pub fn of_goal(alloc: Global, net: &Net) -> Result<Cnf, AllocError>
    requires variables { variable_count (input_count net.now) net.now.tables < 2 ^ 31 }
    requires one_output { length net.now.outputs ≡ 1 }
    ensures { IfOk result (λ cnf. cnf ≡ goal_of net.now) }
{
    let mut clauses = Items::new(alloc);
    let variables = push_net_clauses(alloc, &mut clauses, net)?;
    push_unit_clause(alloc, &mut clauses, net.output(0))?;
    Ok(Cnf::new(variables, clauses))
}
