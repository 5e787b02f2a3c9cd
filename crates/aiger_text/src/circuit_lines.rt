//! What the lines of a circuit say. Source: the ASCII form of AIGER.
ghost use Rattle.std.specs.Prelude.{◌≡◌, None, Some, IfOk};
ghost use Rattle.aiger_semantics.specs.CircuitLines.{is_definable, input_of, output_of, and_of};

use crate::literal::Literal;
use crate::numbers::line_numbers;
use aiger_semantics::and_line::AndLine;
use std::alloc::AllocError;

/// Whether a literal is that of a variable: even, and no constant.
fn is_definable(literal: Literal) -> bool
    ensures { result ≡ is_definable literal }
{
    literal % 2 == 0 && literal >= 2
}

/// The variable of an input line.
pub(crate) fn input_of(
    line: &[u8],
    most: Literal,
    numbers: &mut Vec<u32>,
) -> Result<Option<u32>, AllocError>
    ensures { IfOk result (λ variable. variable ≡ input_of most line.now) }
{
    if !line_numbers(line, most, numbers)? {
        return Ok(None);
    }
    match numbers.as_slice() {
        [literal] if is_definable(*literal) => Ok(Some(*literal / 2)),
        _ => Ok(None),
    }
}

/// The literal of an output line.
pub(crate) fn output_of(
    line: &[u8],
    most: Literal,
    numbers: &mut Vec<u32>,
) -> Result<Option<Literal>, AllocError>
    ensures { IfOk result (λ literal. literal ≡ output_of most line.now) }
{
    if !line_numbers(line, most, numbers)? {
        return Ok(None);
    }
    match numbers.as_slice() {
        [literal] => Ok(Some(*literal)),
        _ => Ok(None),
    }
}

/// The AND of a line.
pub(crate) fn and_of(
    line: &[u8],
    most: Literal,
    numbers: &mut Vec<u32>,
) -> Result<Option<AndLine>, AllocError>
    ensures { IfOk result (λ and. and ≡ and_of most line.now) }
{
    if !line_numbers(line, most, numbers)? {
        return Ok(None);
    }
    match numbers.as_slice() {
        [literal, left, right] if is_definable(*literal) => Ok(Some(AndLine {
            variable: *literal / 2,
            left: *left,
            right: *right,
        })),
        _ => Ok(None),
    }
}
