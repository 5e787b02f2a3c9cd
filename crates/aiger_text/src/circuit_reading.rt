//! The circuit that the lines of a text are. Source: the ASCII form of AIGER.
ghost use Rattle.std.specs.Prelude.{◌≡◌, ◌<◌, ◌≤◌, ◌^◌, ◌∷◌, Ok, length, drop, IfOk, IfErr};
ghost use Rattle.aiger_semantics.specs.CircuitLines.{most_in_header, body_reading, circuit_reading};
ghost use Rattle.aiger_text.specs.Refusals.{Tells};
ghost use Rattle.text_words.specs.Slices.{texts};

use crate::ands::Ands;
use crate::header::header_of;
use crate::place_names::place_names;
use crate::refusal::AigerRefusal;
use crate::sections::{read_ands, read_inputs, read_outputs};
use crate::symbols::{before_comment, read_symbols};
use aiger_semantics::header::Header;
use std::alloc::Global;

/// The lines behind the first `count`.
fn behind<'a, 'b>(lines: &'b [&'a [u8]], count: u64) -> &'b [&'a [u8]]
    ensures { texts result.now ≡ drop count (texts lines.now) }
{
    if count < lines.len() as u64 {
        &lines[count as usize..]
    } else {
        &[]
    }
}

/// The circuit of the lines behind the header.
fn body_reading(alloc: Global, header: &Header, lines: &[&[u8]]) -> Result<Ands, AigerRefusal>
    requires greatest { header.now.greatest ≤ most_in_header }
    requires few { length lines.now < 2 ^ 31 }
    ensures ok { IfOk result (λ circuit. body_reading header.now (texts lines.now) ≡ Ok circuit) }
    ensures err { IfErr result (λ told. Tells told (body_reading header.now (texts lines.now))) }
{
    let most = 2 * header.greatest + 1;
    let outputs_at = u64::from(header.inputs);
    let ands_at = outputs_at + u64::from(header.outputs);
    let symbols_at = ands_at + u64::from(header.ands);
    let inputs = read_inputs(alloc, lines, 2, header.inputs, most)?;
    let output_lines = behind(lines, outputs_at);
    let outputs = read_outputs(alloc, output_lines, 2 + outputs_at, header.outputs, most)?;
    let and_lines = behind(lines, ands_at);
    let ands = read_ands(alloc, and_lines, 2 + ands_at, header.ands, most)?;
    let further = behind(lines, symbols_at);
    let symbol_lines = before_comment(further);
    let given = read_symbols(alloc, header, symbol_lines, 2 + symbols_at)?;
    let input_names = place_names(alloc, b'i', &given.inputs)?;
    let output_names = place_names(alloc, b'o', &given.outputs)?;
    Ok(Ands::of_parts(inputs, ands, outputs, input_names, output_names))
}

/// The circuit of a line and of the lines behind it.
fn header_reading(alloc: Global, line: &[u8], rest: &[&[u8]]) -> Result<Ands, AigerRefusal>
    requires { length rest.now < 2 ^ 31 }
    ensures ok { IfOk result (λ circuit. circuit_reading (line.now ∷ texts rest.now) ≡ Ok circuit) }
    ensures err { IfErr result (λ told. Tells told (circuit_reading (line.now ∷ texts rest.now))) }
{
    let Some(header) = header_of(alloc, line)? else {
        return Err(AigerRefusal::Header);
    };
    if header.latches != 0 {
        return Err(AigerRefusal::Latches);
    }
    body_reading(alloc, &header, rest)
}

/// The circuit of the lines of a text.
pub(crate) fn circuit_reading(alloc: Global, lines: &[&[u8]]) -> Result<Ands, AigerRefusal>
    requires { length lines.now ≤ 2 ^ 31 }
    ensures ok { IfOk result (λ circuit. circuit_reading (texts lines.now) ≡ Ok circuit) }
    ensures err { IfErr result (λ told. Tells told (circuit_reading (texts lines.now))) }
{
    match lines {
        [line, rest @ ..] => header_reading(alloc, line, rest),
        [] => Err(AigerRefusal::Header),
    }
}
