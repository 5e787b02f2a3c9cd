//! AND lines that depend on themselves.
ghost use Rattle.std.specs.Prelude.{◌≡◌, not, ◌==◌, [], ◌∷◌, ◌++◌, Result, None, IfOk, OnOk, IfErr, map};
ghost use Rattle.std.specs.Prelude.{filter};
ghost use Rattle.semantics.specs.Net.{NetValue};
ghost use Rattle.aiger_semantics.specs.CircuitLines.{Refusal, loop as looped};
ghost use Rattle.aiger_semantics.specs.ReadNet.{variables, signal_of_variable};
ghost use Rattle.aiger_semantics.specs.Reading.{operand_table, first_undefined, first_loop, unless_refused};
ghost use Rattle.aiger_text.specs.ReadCircuit.{IsRead};
ghost use Rattle.aiger_text.specs.Refusals.{Tells};

use crate::ands::Ands;
use crate::refusal::AigerRefusal;
use crate::variables::Variables;
use aiger_semantics::and_line::AndLine;
use net_core::items::{Items, SignalList, TableList};
use net_core::name::Name;
use net_core::order::order_of;
use net_core::table::Table;
use std::alloc::{AllocError, Global};

/// Adds the signal of a variable, unless the variable is that of the constant.
fn push_operand(
    pins: &mut SignalList,
    variables: &Variables,
    variable: u32,
) -> Result<(), AllocError>
    ensures { OnOk result (pins.new
        ≡ pins.old ++ map (signal_of_variable variables.now) (filter (λ v. not (v == 0)) (variable ∷ []))) }
{
    if variable != 0 {
        pins.push(variables.signal(variable))?;
    }
    Ok(())
}

/// A table that reads the operands of a line but for the constant. Nothing else of the table is used.
fn operand_table(alloc: Global, variables: &Variables, line: &AndLine) -> Result<Table, AllocError>
    ensures { IfOk result (λ table. table.pins ≡ (operand_table variables.now line.now).pins) }
{
    let name = Name::numbered(alloc, b'a', u64::from(line.variable))?;
    let mut pins = Items::new(alloc);
    push_operand(&mut pins, variables, line.left / 2)?;
    push_operand(&mut pins, variables, line.right / 2)?;
    Ok(Table::new(name, pins, Items::new(alloc), true))
}

/// A table for each line.
fn operand_tables(
    alloc: Global,
    variables: &Variables,
    lines: &[AndLine],
) -> Result<TableList, AllocError>
    ensures { IfOk result (λ tables. map (λ t. t.pins) tables
        ≡ map (λ t. t.pins) (map (operand_table variables.now) lines.now)) }
{
    let mut tables = Items::new(alloc);
    for line in lines {
        tables.push(operand_table(alloc, variables, line)?)?;
    }
    Ok(tables)
}

/// Tests that no line depends on itself. Else returns the refusal of the first line that depends on itself or
/// on one that does.
pub(crate) fn find_no_loop(
    alloc: Global,
    known: &Variables,
    circuit: &Ands,
) -> Result<(), AigerRefusal>
    requires read { IsRead circuit.now }
    requires known { known.now ≡ variables circuit.now }
    requires defined { first_undefined circuit.now ≡ None }
    ensures ok { OnOk result (first_loop circuit.now ≡ None) }
    ensures err { IfErr result (λ told. (rest : Result NetValue Refusal)
        → Tells told (unless_refused (first_loop circuit.now) looped rest)) }
{
    let all = circuit.lines();
    let tables = operand_tables(alloc, known, all)?;
    let inputs = circuit.inputs().len() as u32;
    let found = order_of(alloc, inputs, tables.as_slice())?;
    match found {
        Ok(_) => Ok(()),
        Err(i) => Err(AigerRefusal::Loop(all[i as usize].variable)),
    }
}
