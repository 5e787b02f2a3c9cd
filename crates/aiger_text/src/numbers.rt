//! Numbers between single blanks. Source: the ASCII form of AIGER.
ghost use Rattle.std.specs.Prelude.{◌≡◌, Option, None, Some, IfOk, ◌==◌, position, if◌then◌else◌};
ghost use Rattle.aiger_semantics.specs.TextLines.{number_to, line_numbers};

use decimal_words::decimal::number_from_to;
use std::alloc::AllocError;

/// Where the first blank is.
pub(crate) fn blank_at(line: &[u8]) -> Option<usize>
    ensures { result ≡ position (λ b. b == 32) line.now }
{
    line.iter().position(|b| *b == b' ')
}

/// The number up to `most` that a word is.
pub(crate) fn number_to(word: &[u8], most: u32) -> Option<u32>
    ensures { result ≡ number_to most word.now }
{
    let number = number_from_to(word, 0, u128::from(most))?;
    Some(number as u32)
}

/// Puts the numbers of a line into `numbers`, and returns whether the line has no other words.
pub(crate) fn line_numbers(
    line: &[u8],
    most: u32,
    numbers: &mut Vec<u32>,
) -> Result<bool, AllocError>
    ensures { IfOk result (λ all. line_numbers most line.now
        ≡ (if all then Some numbers.new.items else None)) }
{
    numbers.clear();
    for word in line.split(|b| *b == b' ') {
        let Some(number) = number_to(word, most) else {
            return Ok(false);
        };
        numbers.push(number)?;
    }
    Ok(true)
}
