//! The tables that are conjunctions of literals. Source: BLIF; which tables they are is this tool's own.
ghost use Rattle.std.specs.Prelude.{◌≡◌, ◌==◌, ◌/◌, [], ◌∷◌, ◌++◌, true, length, map, IfOk, OnOk};
ghost use Rattle.std.specs.List.{list_any};
ghost use Rattle.aiger_semantics.specs.ReadNet.{signal_of_variable, literal_mark, asked, conjunction_table};
ghost use Rattle.aiger_semantics.specs.ReadNet.{and_name, and_table, input_ports, own_outputs, output_table};
ghost use Rattle.aiger_text.specs.ReadCircuit.{IsRead};

use crate::ands::Ands;
use crate::literal::Literal;
use crate::ports::Ports;
use crate::variables::Variables;
use aiger_semantics::and_line::AndLine;
use itoa::Buffer;
use net_core::items::{Items, RowList, SignalList, TableList};
use net_core::mark::Mark;
use net_core::name::Name;
use net_core::row::Row;
use net_core::table::{Table, constant_table};
use std::alloc::{AllocError, Global};

/// What a row asks of the variable of a literal.
fn literal_mark(literal: Literal) -> Mark
    ensures { result ≡ literal_mark literal }
{
    if literal % 2 == 0 {
        Mark::One
    } else {
        Mark::Zero
    }
}

/// Adds the signal of a literal's variable, unless the literal is the constant 1.
fn push_pin(
    pins: &mut SignalList,
    variables: &Variables,
    literal: Literal,
) -> Result<(), AllocError>
    ensures { OnOk result (pins.new
        ≡ pins.old ++ map (λ l. signal_of_variable variables.now (l / 2)) (asked (literal ∷ []))) }
{
    if literal != 1 {
        pins.push(variables.signal(literal / 2))?;
    }
    Ok(())
}

/// Adds the mark of a literal, unless it is the constant 1.
fn push_mark(marks: &mut Row, literal: Literal) -> Result<(), AllocError>
    ensures { OnOk result (marks.new ≡ marks.old ++ map literal_mark (asked (literal ∷ []))) }
{
    if literal != 1 {
        marks.push(literal_mark(literal))?;
    }
    Ok(())
}

/// The signals of the variables of literals, but for the constant 1.
fn asked_pins(
    alloc: Global,
    variables: &Variables,
    literals: &[Literal],
) -> Result<SignalList, AllocError>
    ensures { IfOk result (λ pins. pins
        ≡ map (λ l. signal_of_variable variables.now (l / 2)) (asked literals.now)) }
{
    let mut pins = Items::new(alloc);
    for literal in literals {
        push_pin(&mut pins, variables, *literal)?;
    }
    Ok(pins)
}

/// The marks of literals, but for the constant 1.
fn asked_marks(alloc: Global, literals: &[Literal]) -> Result<Row, AllocError>
    ensures { IfOk result (λ marks. marks ≡ map literal_mark (asked literals.now)) }
{
    let mut marks = Row::new(alloc);
    for literal in literals {
        push_mark(&mut marks, *literal)?;
    }
    Ok(marks)
}

/// Whether the constant 0 is among literals.
fn has_zero(literals: &[Literal]) -> bool
    ensures { result ≡ list_any (λ literal. literal == 0) literals.now }
{
    literals.iter().any(|literal| *literal == 0)
}

/// The table of one row and plane 1.
fn row_table(alloc: Global, name: Name, pins: SignalList, marks: Row) -> Result<Table, AllocError>
    requires { length marks ≡ length pins }
    ensures { IfOk result (λ table. table
        ≡ record { name = name; pins = pins; rows = marks ∷ []; plane = true }) }
{
    let mut rows: RowList = Items::new(alloc);
    rows.push(marks)?;
    Ok(Table::new(name, pins, rows, true))
}

/// The table that is the conjunction of literals.
fn conjunction_table(
    alloc: Global,
    variables: &Variables,
    name: Name,
    literals: &[Literal],
) -> Result<Table, AllocError>
    ensures { IfOk result (λ table. table ≡ conjunction_table variables.now name literals.now) }
{
    if has_zero(literals) {
        return constant_table(alloc, name, false);
    }
    let pins = asked_pins(alloc, variables, literals)?;
    let marks = asked_marks(alloc, literals)?;
    row_table(alloc, name, pins, marks)
}

/// The name of the table of an AND line.
fn and_name(alloc: Global, variable: u32) -> Result<Name, AllocError>
    ensures { IfOk result (λ name. name ≡ and_name variable) }
{
    let mut buffer = Buffer::new();
    let mut bytes = Vec::from_slice(alloc, b"$a")?;
    bytes.extend_from_slice(buffer.format(u64::from(variable)).as_bytes())?;
    Name::known(alloc, &bytes)
}

/// A table for each line.
pub(crate) fn and_tables(
    alloc: Global,
    variables: &Variables,
    lines: &[AndLine],
) -> Result<TableList, AllocError>
    ensures { IfOk result (λ tables. tables ≡ map (and_table variables.now) lines.now) }
{
    let mut tables = Items::new(alloc);
    for line in lines {
        let name = and_name(alloc, line.variable)?;
        tables.push(conjunction_table(alloc, variables, name, &[line.left, line.right])?)?;
    }
    Ok(tables)
}

/// Adds a table for each output that has a table of its own.
pub(crate) fn push_own_tables(
    alloc: Global,
    tables: &mut TableList,
    variables: &Variables,
    ports: &Ports,
    circuit: &Ands,
) -> Result<(), AllocError>
    requires read { IsRead circuit.now }
    requires ports { ports.now ≡ input_ports circuit.now ++ own_outputs circuit.now }
    ensures { OnOk result (tables.new
        ≡ tables.old ++ map (output_table variables.now) (own_outputs circuit.now)) }
{
    for place in circuit.inputs().len()..ports.len() {
        let (name, literal) = ports.port(place);
        let name = Name::known(alloc, name)?;
        tables.push(conjunction_table(alloc, variables, name, &[literal])?)?;
    }
    Ok(())
}
