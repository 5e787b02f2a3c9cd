//! Where the tables of a net stand in its goal.
ghost use Rattle.std.specs.Prelude.{◌≡◌, ◌<◌, ◌+◌, ◌^◌, length, sum_by, IfOk};
ghost use Rattle.semantics.specs.Net.{input_count, table_count, signal_count, table_at};
ghost use Rattle.net_core.specs.Built.{IsBuilt};
ghost use Rattle.proof_semantics.specs.Formula.{goal_of};
ghost use Rattle.proof_semantics.specs.Variables.{variable_count, table_clause_count};
ghost use Rattle.merge_log.specs.Chains.{MergedValue};
ghost use Rattle.merge_log.specs.Places.{place_of, IsPlaceList};
ghost use Rattle.merge_log.specs.Steps.{IsTableAt};

use crate::placed::{Place, PlacedTable};
use net_core::net::Net;
use net_core::table::Table;
use proof_parts::cnf::Cnf;
use std::alloc::{AllocError, Global};
use std::marker::Model;

/// A net, its goal, and the place of each of its tables in the goal.
#[derive(Drop)]
pub(crate) struct PlacedNet<'a> {
    net: &'a Net,
    goal: &'a Cnf,
    places: Vec<Place>,
}

impl<'a> Model for PlacedNet<'a> {
    ghost use Rattle.semantics.specs.Net.{NetValue};
    ghost use Rattle.merge_log.specs.Places.{IsPlaced};

    ghost Value = { NetValue };

    ghost view = { λ a. a.net.now };

    ghost invariant = { λ a. IsPlaced a.net.now a.goal.now a.places.items };
}

/// The number of clauses of a table.
fn table_clause_count(table: &Table) -> u64
    requires { table_clause_count table.now < 2 ^ 61 }
    ensures { result ≡ table_clause_count table.now }
{
    let rows = table.rows().len() as u64;
    table.literals() + rows + rows + 1
}

/// The number of clauses of a formula.
fn clause_count(goal: &Cnf) -> usize
    ensures value { result ≡ length goal.now.clauses }
    ensures few { length goal.now.clauses < 2 ^ 58 }
{
    goal.clauses().as_slice().len()
}

/// Shows that there are few variables and clauses, since all of them are held in memory.
fn see_few(net: &Net, goal: &Cnf)
    requires { goal.now ≡ goal_of net.now }
    ensures variables { variable_count (input_count net.now) net.now.tables < 2 ^ 31 }
    ensures tables { sum_by table_clause_count net.now.tables < 2 ^ 60 }
    ensures formula { length (goal_of net.now).clauses < 2 ^ 61 }
{
    let _inputs = net.inputs();
    let _variables = goal.vars();
    let _count = clause_count(goal);
}

/// The place of each table.
fn places(alloc: Global, net: &Net) -> Result<Vec<Place>, AllocError>
    requires variables { variable_count (input_count net.now) net.now.tables < 2 ^ 31 }
    requires clauses { sum_by table_clause_count net.now.tables < 2 ^ 60 }
    ensures { IfOk result (λ places. IsPlaceList (input_count net.now) net.now.tables (table_count net.now)
        places.items) }
{
    let mut places = Vec::new(alloc);
    let mut place = Place {
        row: net.signals(),
        clause: 1,
    };
    for t in 0..net.tables() {
        places.push(place)?;
        let table = net.table(t);
        place = Place {
            row: place.row + table.rows().len() as u32,
            clause: place.clause + table_clause_count(table),
        };
    }
    Ok(places)
}

impl<'a> PlacedNet<'a> {
    /// The places of the tables of a net in its goal.
    pub(crate) fn new(
        alloc: Global,
        net: &'a Net,
        goal: &'a Cnf,
    ) -> Result<PlacedNet<'a>, AllocError>
        requires { goal.now ≡ goal_of net.now }
        ensures { IfOk result (λ placed. placed ≡ net.now) }
    {
        see_few(net, goal);
        let places = places(alloc, net)?;
        Ok(PlacedNet { net, goal, places })
    }

    /// The net.
    pub(crate) fn net(&self) -> &'a Net
        ensures value { result.now ≡ self.now }
        ensures clauses { length (goal_of self.now).clauses < 2 ^ 61 }
    {
        self.net
    }

    /// The net's goal.
    pub(crate) fn goal(&self) -> &'a Cnf
        ensures { result.now ≡ goal_of self.now }
    {
        self.goal
    }

    /// Table t with its place.
    pub(crate) fn table(&self, t: u32) -> PlacedTable<'a>
        requires { t < table_count self.now }
        ensures signal { result.signal ≡ input_count self.now + t }
        ensures table { result.table.now ≡ table_at self.now.tables t }
        ensures place { result.place ≡ place_of (input_count self.now) self.now.tables t }
        ensures stands { (m : MergedValue) → length m.firsts ≡ signal_count self.now
            → IsTableAt (goal_of self.now) m result }
        ensures built { IsBuilt self.now }
    {
        let inputs = self.net.inputs();
        let table = self.net.table(t);
        let place = self.places[t as usize];
        PlacedTable {
            signal: inputs + t,
            table,
            place,
        }
    }
}
