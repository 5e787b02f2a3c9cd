//! Lines as slices of the text. Source: DIMACS.
ghost use Rattle.std.specs.Prelude.{◌≡◌, ◌==◌, ◌&&◌, not, IfOk};
ghost use Rattle.std.specs.List.{list_all};
ghost use Rattle.blif_semantics.specs.Lines.{is_blank};
ghost use Rattle.solve_cnf.specs.Reading.{is_comment, lines_of};
ghost use Rattle.solve_cnf.specs.Slices.{line_texts};
ghost use Rattle.solve_cnf.specs.Places.{line_number, line_values, numbered_lines};

use std::alloc::{AllocError, Global};
use text_words::words::is_blank;

/// The number of lines before a line, and the line's bytes.
pub type Line<'a> = (usize, &'a [u8]);

/// The number of a line, from 1.
pub fn line_number(line: &Line) -> usize
    ensures { result ≡ line_number line.now.0 }
{
    line.0.saturating_add(1)
}

/// Whether the line begins with `c`.
fn is_comment(line: &[u8]) -> bool
    ensures { result ≡ is_comment line.now }
{
    !line.is_empty() && line[0] == b'c'
}

/// Whether the line has no byte but blanks.
fn is_empty(line: &[u8]) -> bool
    ensures { result ≡ list_all is_blank line.now }
{
    line.iter().all(|b| is_blank(*b))
}

/// Whether the line is no comment and has more than blanks.
fn has_words(line: &[u8]) -> bool
    ensures { result ≡ (not (is_comment line.now) && not (list_all is_blank line.now)) }
{
    !is_comment(line) && !is_empty(line)
}

/// The lines that are no comments and have more than blanks.
pub fn lines_of<'a>(alloc: Global, text: &'a [u8]) -> Result<Vec<Line<'a>>, AllocError>
    ensures texts { IfOk result (λ v. line_texts v.items ≡ lines_of text.now) }
    ensures numbers { IfOk result (λ v. line_values v.items ≡ numbered_lines text.now) }
{
    text.split(|b| *b == b'\n')
        .enumerate()
        .filter(|line| has_words(line.1))
        .collect(alloc)
}
