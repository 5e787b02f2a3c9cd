//! Symbol lines. Source: the ASCII form of AIGER.
ghost use Rattle.std.specs.Prelude.{◌≡◌};
ghost use Rattle.aiger_semantics.specs.CircuitLines.{places, symbol_at, symbol_of, begins_comment};

use crate::header::MOST_IN_HEADER;
use crate::numbers::{blank_at, number_to};
use aiger_semantics::header::Header;
use std::marker::Model;

/// The letter `i` or `o`, a place, from 0, and a text for the input or output that stands there.
#[derive(Drop)]
pub(crate) struct Symbol<'a> {
    pub(crate) letter: u8,
    pub(crate) place: u32,
    pub(crate) text: &'a [u8],
}

impl<'a> Model for Symbol<'a> {
    ghost use Rattle.aiger_semantics.specs.CircuitLines.{Symbol};

    ghost Value = { Symbol };

    ghost view = { λ a. record { letter = a.letter; place = a.place; text = a.text.now } };
}

/// The number of places for a letter.
fn places(header: &Header, letter: u8) -> u32
    ensures { result ≡ places header.now letter }
{
    match letter {
        b'i' => header.inputs,
        b'o' => header.outputs,
        _ => 0,
    }
}

/// The symbol of the text at a place, if the word is a place below `count` and the text is not empty.
fn symbol_at<'a>(letter: u8, count: u32, word: &[u8], text: &'a [u8]) -> Option<Symbol<'a>>
    ensures { result ≡ symbol_at letter count word.now text.now }
{
    if text.is_empty() {
        return None;
    }
    match number_to(word, MOST_IN_HEADER) {
        Some(place) if place < count => Some(Symbol {
            letter,
            place,
            text,
        }),
        _ => None,
    }
}

/// The symbol that a line is.
pub(crate) fn symbol_of<'a>(header: &Header, line: &'a [u8]) -> Option<Symbol<'a>>
    ensures { result ≡ symbol_of header.now line.now }
{
    match line {
        [letter, rest @ ..] => match blank_at(rest) {
            Some(at) => symbol_at(
                *letter,
                places(header, *letter),
                &rest[..at],
                &rest[at + 1..],
            ),
            None => None,
        },
        [] => None,
    }
}

/// Whether a line ends the reading, as the first line of a comment.
pub(crate) fn begins_comment(line: &[u8]) -> bool
    ensures { result ≡ begins_comment line.now }
{
    matches!(line, [b'c', ..])
}
