//! Lines as slices of the text. Source: BLIF's comments, blanks and backslashes at the ends of lines.
ghost use Rattle.std.specs.Prelude.{◌≡◌, ◌==◌, not, None, Some, length, position};
ghost use Rattle.std.specs.Borrow.{Bor};
ghost use Rattle.blif_semantics.specs.Lines.{without_comment, trimmed, before_backslash, words_of};
ghost use Rattle.semantics.specs.Texts.{Bytes};

use text_words::words::is_blank;

/// Where the first `#` is.
fn hash_at(line: &[u8]) -> Option<usize>
    ensures { result ≡ position (λ b. b == 35) line.now }
{
    line.iter().position(|b| *b == b'#')
}

/// The line up to the first `#`.
pub fn without_comment(line: &[u8]) -> &[u8]
    ensures { result.now ≡ without_comment line.now }
{
    match hash_at(line) {
        Some(at) => &line[..at],
        None => line,
    }
}

/// The line without the blanks at its end.
fn trimmed(line: &[u8]) -> &[u8]
    ensures { result.now ≡ trimmed line.now }
{
    let mut end = line.len();
    while end > 0 && is_blank(line[end - 1]) {
        end -= 1;
    }
    &line[..end]
}

/// What stands before the backslash, where that is the last byte that is no blank.
pub fn before_backslash(line: &[u8]) -> Option<&[u8]>
    ensures some { (front : Bor Bytes) → result ≡ Some front → before_backslash line.now ≡ Some front.now }
    ensures none { result ≡ None → before_backslash line.now ≡ None }
{
    match trimmed(line) {
        [front @ .., b'\\'] => Some(front),
        _ => None,
    }
}

/// Whether the line has a byte that is no blank.
pub fn has_words(line: &[u8]) -> bool
    ensures { result ≡ not (length (words_of line.now) == 0) }
{
    line.split(|b| is_blank(*b)).any(|w| !w.is_empty())
}
