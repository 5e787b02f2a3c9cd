//! AND circuits with names for their inputs and outputs. Source: AIGER.
ghost use Rattle.std.specs.Prelude.{◌≡◌, ℕ, ◌+◌, ◌^◌, ◌<◌, ◌≤◌, length, map, slice_index_or, sum_by, IfOk};
ghost use Rattle.std.specs.List.{range_with_len};
ghost use Rattle.semantics.specs.Net.{IsSmall, input_count, table_count, signal_count, signal_names, name_of};
ghost use Rattle.aiger_semantics.specs.ReadNet.{variables};
ghost use Rattle.aiger_semantics.specs.NetCircuit.{table_ands, first_variable, signal_literal, tables_joins};
ghost use Rattle.aiger_semantics.specs.NetCircuit.{ands_of};

use crate::lines::push_table;
use crate::literal::Literal;
use crate::signals::{first_variables, signal_literals};
use aiger_semantics::and_line::AndLine;
use net_core::items::{Items, NameList};
use net_core::name::Name;
use net_core::net::Net;
use std::alloc::{AllocError, Global};
use std::marker::Model;

/// An AND circuit: the variables of its inputs, its lines and the literals of its outputs, and a name for
/// each input and output.
#[derive(Drop)]
pub struct Ands {
    inputs: Items<u32>,
    lines: Items<AndLine>,
    outputs: Items<Literal>,
    input_names: NameList,
    output_names: NameList,
}

impl Model for Ands {
    ghost use Rattle.std.specs.Prelude.{length, ◌+◌, ◌<◌, ◌^◌};
    ghost use Rattle.aiger_semantics.specs.Circuit.{CircuitValue};

    ghost Value = { CircuitValue };

    ghost view = { λ a. record {
      inputs = a.inputs;
      ands = a.lines;
      outputs = a.outputs;
      input_names = a.input_names;
      output_names = a.output_names;
    } };

    ghost invariant = { λ a. length a.inputs + length a.lines < 2 ^ 31 };
}

/// The variables of `inputs` inputs.
fn input_variables(alloc: Global, inputs: u32) -> Result<Items<u32>, AllocError>
    requires { inputs < 2 ^ 31 }
    ensures { IfOk result (λ variables. variables ≡ range_with_len 1 inputs) }
{
    let mut variables = Items::new(alloc);
    for i in 0..inputs {
        variables.push(i + 1)?;
    }
    Ok(variables)
}

/// The lines of all tables.
fn net_lines(
    alloc: Global,
    net: &Net,
    firsts: &[u32],
    literals: &[Literal],
) -> Result<Items<AndLine>, AllocError>
    requires fits { input_count net.now + 1 + sum_by table_ands net.now.tables ≤ 2 ^ 31 }
    requires firsts { firsts.now
        ≡ map (first_variable (input_count net.now) net.now.tables) (range_with_len 0 (table_count net.now)) }
    requires count { length literals.now ≡ signal_count net.now }
    ensures { IfOk result (λ lines. lines
        ≡ tables_joins (λ s. slice_index_or literals.now s 0) (input_count net.now + 1) net.now.tables) }
{
    let mut lines = Items::new(alloc);
    let mut asked = Vec::new(alloc);
    let mut opposites = Vec::new(alloc);
    for t in 0..net.tables() {
        let first = firsts[t as usize];
        push_table(
            &mut lines,
            net.table(t),
            literals,
            first,
            &mut asked,
            &mut opposites,
        )?;
    }
    Ok(lines)
}

/// The literals of the outputs.
fn output_literals(
    alloc: Global,
    net: &Net,
    literals: &[Literal],
) -> Result<Items<Literal>, AllocError>
    requires count { length literals.now ≡ signal_count net.now }
    ensures { IfOk result (λ outputs. outputs ≡ map (λ s. slice_index_or literals.now s 0) net.now.outputs) }
{
    let mut outputs = Items::new(alloc);
    for i in 0..net.outputs() {
        outputs.push(literals[net.output(i) as usize])?;
    }
    Ok(outputs)
}

/// The names of the outputs.
fn output_names(alloc: Global, net: &Net) -> Result<NameList, AllocError>
    ensures { IfOk result (λ names. names ≡ map (name_of (signal_names net.now)) net.now.outputs) }
{
    let mut names = NameList::new(alloc);
    for i in 0..net.outputs() {
        names.push(net.signal_name(net.output(i)).copy()?)?;
    }
    Ok(names)
}

impl Ands {
    /// The circuit of these parts. The call takes no memory.
    pub(crate) fn of_parts(
        inputs: Items<u32>,
        lines: Items<AndLine>,
        outputs: Items<Literal>,
        input_names: NameList,
        output_names: NameList,
    ) -> Ands
        requires { length inputs + length lines < 2 ^ 31 }
        ensures { result ≡ record {
          inputs = inputs;
          ands = lines;
          outputs = outputs;
          input_names = input_names;
          output_names = output_names;
        } }
    {
        Ands {
            inputs,
            lines,
            outputs,
            input_names,
            output_names,
        }
    }

    /// The circuit of a net: table by table and row by row, joined from left to right, and nothing is folded.
    pub fn of_net(alloc: Global, net: &Net) -> Result<Ands, AllocError>
        requires { IsSmall net.now }
        ensures { IfOk result (λ circuit. circuit ≡ ands_of net.now) }
    {
        let inputs = net.inputs();
        let firsts = first_variables(alloc, net)?;
        let literals = signal_literals(alloc, net, &firsts)?;
        Ok(Ands {
            inputs: input_variables(alloc, inputs)?,
            lines: net_lines(alloc, net, &firsts, &literals)?,
            outputs: output_literals(alloc, net, &literals)?,
            input_names: NameList::from_slice(alloc, net.input_names())?,
            output_names: output_names(alloc, net)?,
        })
    }

    /// The variables that are defined: those of the inputs, and then those of the lines.
    pub(crate) fn defined(&self, alloc: Global) -> Result<Vec<u32>, AllocError>
        ensures value { IfOk result (λ defined. defined.items ≡ variables self.now) }
        ensures few { length self.now.inputs + length self.now.ands < 2 ^ 31 }
    {
        let mut defined = Vec::from_slice(alloc, self.inputs.as_slice())?;
        for line in self.lines.as_slice() {
            defined.push(line.variable)?;
        }
        Ok(defined)
    }

    /// How many variables there are: the inputs and the lines.
    pub fn variables(&self) -> usize
        ensures { result ≡ length self.now.inputs + length self.now.ands }
    {
        self.inputs.len() + self.lines.len()
    }

    /// The variables of the inputs.
    pub fn inputs(&self) -> &[u32]
        ensures { result.now ≡ self.now.inputs }
    {
        self.inputs.as_slice()
    }

    /// The AND lines.
    pub fn lines(&self) -> &[AndLine]
        ensures { result.now ≡ self.now.ands }
    {
        self.lines.as_slice()
    }

    /// The literals of the outputs.
    pub fn outputs(&self) -> &[Literal]
        ensures { result.now ≡ self.now.outputs }
    {
        self.outputs.as_slice()
    }

    /// The names of the inputs.
    pub fn input_names(&self) -> &[Name]
        ensures { result.now ≡ self.now.input_names }
    {
        self.input_names.as_slice()
    }

    /// The names of the outputs.
    pub fn output_names(&self) -> &[Name]
        ensures { result.now ≡ self.now.output_names }
    {
        self.output_names.as_slice()
    }
}
