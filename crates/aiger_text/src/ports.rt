//! The inputs and outputs of a circuit, each a name and a literal, and which outputs have tables of their
//! own.
ghost use Rattle.std.specs.Prelude.{◌≡◌, ◌<◌, ◌^◌, [], ◌∷◌, ◌++◌, None, IfOk, OnOk, All, if◌then◌else◌};
ghost use Rattle.std.specs.Prelude.{length, map, slice_index_or, position};
ghost use Rattle.aiger_semantics.specs.Circuit.{literal_of_variable};
ghost use Rattle.aiger_semantics.specs.ReadNet.{Port, variables, ports, is_port, has_port, new_ports};
ghost use Rattle.aiger_semantics.specs.ReadNet.{place_or_end, input_ports, output_ports, own_outputs};
ghost use Rattle.aiger_semantics.specs.ReadNet.{port_signal};
ghost use Rattle.aiger_semantics.specs.Reading.{first_repeated};
ghost use Rattle.aiger_text.specs.ReadCircuit.{IsRead};

use crate::ands::Ands;
use crate::literal::Literal;
use net_core::items::{Items, Signal, SignalList};
use net_core::name::Name;
use numbered_keys::keys::NumberedKeys;
use std::alloc::{AllocError, Global};
use std::marker::Model;

/// Names with literals that differ, in order. Each is found by comparisons with a few of them.
#[derive(Drop)]
pub(crate) struct Ports<'a> {
    ports: NumberedKeys<(&'a [u8], Literal)>,
}

impl<'a> Model for Ports<'a> {
    ghost use Rattle.std.specs.Prelude.{List, map};
    ghost use Rattle.aiger_semantics.specs.ReadNet.{Port};

    ghost Value = { List Port };

    ghost view = { λ a. map (λ key. record { name = key.0.now; literal = key.1 }) a.ports };
}

/// The literals of the inputs' variables.
fn input_literals(alloc: Global, inputs: &[u32]) -> Result<Vec<Literal>, AllocError>
    requires { All (λ v. v < 2 ^ 31) inputs.now }
    ensures { IfOk result (λ literals. literals.items ≡ map literal_of_variable inputs.now) }
{
    let mut literals = Vec::new(alloc);
    for variable in inputs {
        literals.push(2 * *variable)?;
    }
    Ok(literals)
}

impl<'a> Ports<'a> {
    fn new(alloc: Global) -> Ports<'a>
        ensures { result ≡ [] }
    {
        Ports {
            ports: NumberedKeys::new(alloc),
        }
    }

    /// Adds a name with a literal, if it is new.
    fn add(&mut self, name: &'a Name, literal: Literal) -> Result<(), AllocError>
        ensures { OnOk result (self.new
            ≡ (if has_port self.old (record { name = name.now; literal = literal })
            then self.old else self.old ++ record { name = name.now; literal = literal } ∷ [])) }
    {
        self.ports.add((name.bytes(), literal))?;
        Ok(())
    }

    /// Adds those of these that are new.
    fn add_all(&mut self, names: &'a [Name], literals: &[Literal]) -> Result<(), AllocError>
        requires { length names.now ≡ length literals.now }
        ensures { OnOk result (self.new ≡ self.old ++ new_ports self.old (ports names.now literals.now)) }
    {
        for (i, name) in names.iter().enumerate() {
            self.add(name, literals[i])?;
        }
        Ok(())
    }

    /// The inputs, and then the outputs that have tables of their own.
    pub(crate) fn of(alloc: Global, circuit: &'a Ands) -> Result<Ports<'a>, AllocError>
        requires read { IsRead circuit.now }
        requires differ { first_repeated (variables circuit.now) ≡ None }
        ensures { IfOk result (λ all. all ≡ input_ports circuit.now ++ own_outputs circuit.now) }
    {
        let literals = input_literals(alloc, circuit.inputs())?;
        let mut all = Ports::new(alloc);
        all.add_all(circuit.input_names(), &literals)?;
        all.add_all(circuit.output_names(), circuit.outputs())?;
        Ok(all)
    }

    pub(crate) fn len(&self) -> usize
        ensures { result ≡ length self.now }
    {
        self.ports.len()
    }

    /// The name and the literal at a place.
    pub(crate) fn port(&self, place: usize) -> (&'a [u8], Literal)
        requires { place < length self.now }
        ensures { (d : Port) → record { name = result.0.now; literal = result.1 }
            ≡ slice_index_or self.now place d }
    {
        self.ports.as_slice()[place]
    }

    /// The place of a name with a literal.
    fn place(&self, name: &'a Name, literal: Literal) -> usize
        ensures { result ≡ place_or_end
            (position (is_port (record { name = name.now; literal = literal })) self.now) }
    {
        match self.ports.place(&(name.bytes(), literal)) {
            Some(place) => place,
            None => 0,
        }
    }

    /// The signal of an output.
    fn output_signal(&self, circuit: &'a Ands, i: usize) -> Signal
        requires read { IsRead circuit.now }
        requires ports { self.now ≡ input_ports circuit.now ++ own_outputs circuit.now }
        requires output { i < length circuit.now.outputs }
        ensures { (d : Port) → result
            ≡ port_signal circuit.now (slice_index_or (output_ports circuit.now) i d) }
    {
        let place = self.place(&circuit.output_names()[i], circuit.outputs()[i]);
        if place < circuit.inputs().len() {
            place as u32
        } else {
            (place + circuit.lines().len()) as u32
        }
    }

    /// The signals of the outputs.
    pub(crate) fn output_signals(
        &self,
        alloc: Global,
        circuit: &'a Ands,
    ) -> Result<SignalList, AllocError>
        requires read { IsRead circuit.now }
        requires ports { self.now ≡ input_ports circuit.now ++ own_outputs circuit.now }
        ensures { IfOk result (λ signals. signals
            ≡ map (port_signal circuit.now) (output_ports circuit.now)) }
    {
        let mut signals = Items::new(alloc);
        for i in 0..circuit.outputs().len() {
            signals.push(self.output_signal(circuit, i))?;
        }
        Ok(signals)
    }
}
