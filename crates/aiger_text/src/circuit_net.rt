//! The net that a circuit is read as, or why it is refused. Source: AIGER; what is refused, and in which
//! order, is this tool's own.
ghost use Rattle.std.specs.Prelude.{◌≡◌, ◌+◌, ◌<◌, ◌^◌, ◌==◌, ◌++◌, false, None, Ok, length, map, IfOk};
ghost use Rattle.std.specs.Prelude.{IfErr};
ghost use Rattle.semantics.specs.Refusals.{first_undriven, first_ungrounded};
ghost use Rattle.aiger_semantics.specs.ReadNet.{variables, and_table, output_table, input_ports};
ghost use Rattle.aiger_semantics.specs.ReadNet.{output_ports, own_outputs, port_signal, net_of};
ghost use Rattle.aiger_semantics.specs.Reading.{first_repeated, first_undefined, first_loop, named};
ghost use Rattle.aiger_semantics.specs.Reading.{net_reading};
ghost use Rattle.aiger_text.specs.ReadCircuit.{IsRead};
ghost use Rattle.aiger_text.specs.Refusals.{Tells};

use crate::ands::Ands;
use crate::conjunctions::{and_tables, push_own_tables};
use crate::loops::find_no_loop;
use crate::ports::Ports;
use crate::refusal::AigerRefusal;
use crate::variables::Variables;
use net_core::items::{NameList, SignalList, TableList};
use net_core::name::Name;
use net_core::net::Net;
use net_core::refusal::NetRefusal;
use std::alloc::{AllocError, Global};

/// The net of parts that are wired and have no loop, or the refusal of a doubled name or a limit.
fn named_net(
    alloc: Global,
    model: Name,
    inputs: NameList,
    tables: TableList,
    outputs: SignalList,
) -> Result<Net, AigerRefusal>
    requires few { length inputs + length tables < 2 ^ 31 }
    requires output { (length outputs == 0) ≡ false }
    requires driven { first_undriven
        (record { model = model; inputs = inputs; tables = tables; outputs = outputs }) ≡ None }
    requires grounded { first_ungrounded (length inputs) tables ≡ None }
    ensures ok { IfOk result (λ n. named
        (record { model = model; inputs = inputs; tables = tables; outputs = outputs }) ≡ Ok n) }
    ensures err { IfErr result
        (λ told. Tells told (named
        (record { model = model; inputs = inputs; tables = tables; outputs = outputs }))) }
{
    match Net::from_parts(alloc, model, inputs, tables, outputs) {
        Ok(net) => Ok(net),
        Err(NetRefusal::Doubled(name)) => Err(AigerRefusal::Doubled(name)),
        Err(NetRefusal::Limit(which)) => Err(AigerRefusal::Limit(which)),
        Err(NetRefusal::OutOfMemory) => Err(AigerRefusal::OutOfMemory),
        Err(NetRefusal::NoOutput) => unreachable!(),
        Err(NetRefusal::Undriven(_)) => unreachable!(),
        Err(NetRefusal::Cycle(_)) => unreachable!(),
    }
}

/// The tables of a circuit: one for each line, and one for each output that has its own.
fn circuit_tables(
    alloc: Global,
    known: &Variables,
    ports: &Ports,
    circuit: &Ands,
) -> Result<TableList, AllocError>
    requires read { IsRead circuit.now }
    requires ports { ports.now ≡ input_ports circuit.now ++ own_outputs circuit.now }
    ensures { IfOk result (λ tables. tables
        ≡ map (and_table known.now) circuit.now.ands
        ++ map (output_table known.now) (own_outputs circuit.now)) }
{
    let mut tables = and_tables(alloc, known, circuit.lines())?;
    push_own_tables(alloc, &mut tables, known, ports, circuit)?;
    Ok(tables)
}

/// The tables of a circuit, and the signals of its outputs.
fn wired_parts(
    alloc: Global,
    known: &Variables,
    circuit: &Ands,
) -> Result<(TableList, SignalList), AllocError>
    requires read { IsRead circuit.now }
    requires differ { first_repeated (variables circuit.now) ≡ None }
    ensures tables { IfOk result (λ p. p.0
        ≡ map (and_table known.now) circuit.now.ands
        ++ map (output_table known.now) (own_outputs circuit.now)) }
    ensures outputs { IfOk result (λ p. p.1 ≡ map (port_signal circuit.now) (output_ports circuit.now)) }
{
    let ports = Ports::of(alloc, circuit)?;
    let tables = circuit_tables(alloc, known, &ports, circuit)?;
    let outputs = ports.output_signals(alloc, circuit)?;
    Ok((tables, outputs))
}

/// The net of a circuit that has no fault but perhaps in its names and its size.
fn net_of(alloc: Global, known: &Variables, circuit: &Ands) -> Result<Net, AigerRefusal>
    requires read { IsRead circuit.now }
    requires known { known.now ≡ variables circuit.now }
    requires differ { first_repeated (variables circuit.now) ≡ None }
    requires defined { first_undefined circuit.now ≡ None }
    requires output { (length circuit.now.outputs == 0) ≡ false }
    requires no_loop { first_loop circuit.now ≡ None }
    ensures ok { IfOk result (λ n. named (net_of circuit.now) ≡ Ok n) }
    ensures err { IfErr result (λ told. Tells told (named (net_of circuit.now))) }
{
    let model = Name::known(alloc, b"top")?;
    let inputs = NameList::from_slice(alloc, circuit.input_names())?;
    let (tables, outputs) = wired_parts(alloc, known, circuit)?;
    named_net(alloc, model, inputs, tables, outputs)
}

/// The net of a circuit, or its refusal.
pub(crate) fn net_reading(alloc: Global, circuit: &Ands) -> Result<Net, AigerRefusal>
    requires read { IsRead circuit.now }
    ensures ok { IfOk result (λ n. net_reading circuit.now ≡ Ok n) }
    ensures err { IfErr result (λ told. Tells told (net_reading circuit.now)) }
{
    let defined = circuit.defined(alloc)?;
    let variables = Variables::of(alloc, &defined)?;
    variables.know_all(circuit)?;
    if circuit.outputs().is_empty() {
        return Err(AigerRefusal::NoOutput);
    }
    find_no_loop(alloc, &variables, circuit)?;
    net_of(alloc, &variables, circuit)
}
