//! The lines of the inputs, the outputs and the ANDs, each as many as the header says. Source: the ASCII form
//! of AIGER.
ghost use Rattle.std.specs.Prelude.{◌≡◌, ◌+◌, ◌<◌, ◌≤◌, ◌^◌, length, Ok, OnOk, IfOk, IfErr};
ghost use Rattle.aiger_semantics.specs.CircuitLines.{input_of, output_of, and_of, all_read};
ghost use Rattle.aiger_text.specs.Refusals.{Tells};
ghost use Rattle.text_words.specs.Slices.{texts};

use crate::circuit_lines::{and_of, input_of, output_of};
use crate::literal::Literal;
use crate::refusal::AigerRefusal;
use aiger_semantics::and_line::AndLine;
use net_core::items::Items;
use std::alloc::Global;

/// The variables of `count` inputs; the first line has the number `number`.
pub(crate) fn read_inputs(
    alloc: Global,
    lines: &[&[u8]],
    first: u64,
    count: u32,
    most: Literal,
) -> Result<Items<u32>, AigerRefusal>
    requires { first < 2 ^ 63 }
    ensures ok { IfOk result (λ inputs. all_read (input_of most) first count (texts lines.now) ≡ Ok inputs) }
    ensures err { IfErr result (λ told. Tells told (all_read (input_of most) first count (texts lines.now))) }
{
    let mut numbers = Vec::new(alloc);
    let mut inputs = Items::new(alloc);
    for i in 0..count {
        let at = i as usize;
        if at >= lines.len() {
            return Err(AigerRefusal::Line(first + u64::from(i)));
        }
        let Some(input) = input_of(lines[at], most, &mut numbers)? else {
            return Err(AigerRefusal::Line(first + u64::from(i)));
        };
        inputs.push(input)?;
    }
    Ok(inputs)
}

/// The literals of `count` outputs; the first line has the number `number`.
pub(crate) fn read_outputs(
    alloc: Global,
    lines: &[&[u8]],
    first: u64,
    count: u32,
    most: Literal,
) -> Result<Items<Literal>, AigerRefusal>
    requires { first < 2 ^ 63 }
    ensures ok { IfOk result (λ outputs. all_read (output_of most) first count (texts lines.now)
        ≡ Ok outputs) }
    ensures err { IfErr result
        (λ told. Tells told (all_read (output_of most) first count (texts lines.now))) }
{
    let mut numbers = Vec::new(alloc);
    let mut outputs = Items::new(alloc);
    for i in 0..count {
        let at = i as usize;
        if at >= lines.len() {
            return Err(AigerRefusal::Line(first + u64::from(i)));
        }
        let Some(output) = output_of(lines[at], most, &mut numbers)? else {
            return Err(AigerRefusal::Line(first + u64::from(i)));
        };
        outputs.push(output)?;
    }
    Ok(outputs)
}

/// The lines of `count` ANDs; the first line has the number `number`.
pub(crate) fn read_ands(
    alloc: Global,
    lines: &[&[u8]],
    first: u64,
    count: u32,
    most: Literal,
) -> Result<Items<AndLine>, AigerRefusal>
    requires { first < 2 ^ 63 }
    ensures ok { IfOk result (λ ands. all_read (and_of most) first count (texts lines.now) ≡ Ok ands) }
    ensures err { IfErr result (λ told. Tells told (all_read (and_of most) first count (texts lines.now))) }
{
    let mut numbers = Vec::new(alloc);
    let mut ands = Items::new(alloc);
    for i in 0..count {
        let at = i as usize;
        if at >= lines.len() {
            return Err(AigerRefusal::Line(first + u64::from(i)));
        }
        let Some(and) = and_of(lines[at], most, &mut numbers)? else {
            return Err(AigerRefusal::Line(first + u64::from(i)));
        };
        ands.push(and)?;
    }
    Ok(ands)
}
