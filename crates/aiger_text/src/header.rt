//! The header of a circuit's text. Source: the ASCII form of AIGER.
ghost use Rattle.std.specs.Prelude.{◌≡◌, None, Some, IfOk};
ghost use Rattle.aiger_semantics.specs.TextLines.{line_numbers};
ghost use Rattle.aiger_semantics.specs.CircuitLines.{most_in_header, header_numbers, header_of};

use crate::numbers::{blank_at, line_numbers};
use aiger_semantics::header::Header;
use std::alloc::{AllocError, Global};

/// The greatest number of a header.
pub(crate) const MOST_IN_HEADER: u32 = 0x7fff_ffff;

/// The header of five numbers.
fn header_numbers(numbers: &[u32]) -> Option<Header>
    ensures { result ≡ header_numbers (Some numbers.now) }
{
    match numbers {
        [greatest, inputs, latches, outputs, ands] => Some(Header {
            greatest: *greatest,
            inputs: *inputs,
            latches: *latches,
            outputs: *outputs,
            ands: *ands,
        }),
        _ => None,
    }
}

/// The header of a line behind its first word.
fn header_rest(alloc: Global, rest: &[u8]) -> Result<Option<Header>, AllocError>
    ensures { IfOk result (λ header. header ≡ header_numbers (line_numbers most_in_header rest.now)) }
{
    let mut numbers = Vec::new(alloc);
    if line_numbers(rest, MOST_IN_HEADER, &mut numbers)? {
        Ok(header_numbers(&numbers))
    } else {
        Ok(None)
    }
}

/// The header that a line is.
pub(crate) fn header_of(alloc: Global, line: &[u8]) -> Result<Option<Header>, AllocError>
    ensures { IfOk result (λ header. header ≡ header_of line.now) }
{
    match blank_at(line) {
        Some(at) if &line[..at] == b"aag".as_slice() => header_rest(alloc, &line[at + 1..]),
        _ => Ok(None),
    }
}
