//! What a line is, and the words in it. Source: BLIF.
ghost use Rattle.std.specs.Prelude.{◌≡◌, ◌==◌, not};
ghost use Rattle.std.specs.List.{list_all};
ghost use Rattle.blif_semantics.specs.Statements.{kind_of, first_word, arguments, is_printable};
ghost use Rattle.blif_semantics.specs.Statements.{has_name_bytes, is_name, are_names, is_mark, plane_of};
ghost use Rattle.blif_semantics.specs.Statements.{row_plane};
ghost use Rattle.text_words.specs.Slices.{texts};

use blif_semantics::kind::Kind;

/// The most bytes of a name.
const LONGEST_NAME: usize = 1023;

/// What a line is, by its first word.
pub fn kind_of(words: &[&[u8]]) -> Kind
    ensures { result ≡ kind_of (texts words.now) }
{
    let Some((first, _)) = words.split_first() else {
        return Kind::Row;
    };
    if *first == b".model".as_slice() {
        Kind::Model
    } else if *first == b".inputs".as_slice() {
        Kind::Inputs
    } else if *first == b".outputs".as_slice() {
        Kind::Outputs
    } else if *first == b".names".as_slice() {
        Kind::Names
    } else if *first == b".end".as_slice() {
        Kind::End
    } else {
        match *first {
            [b'.', ..] => Kind::Command,
            _ => Kind::Row,
        }
    }
}

/// The first word, or the empty one.
pub fn first_word<'a>(words: &[&'a [u8]]) -> &'a [u8]
    ensures { result.now ≡ first_word (texts words.now) }
{
    match words {
        [word, ..] => word,
        [] => &[],
    }
}

/// The words after the first.
pub fn arguments<'w, 'a>(words: &'w [&'a [u8]]) -> &'w [&'a [u8]]
    ensures { texts result.now ≡ arguments (texts words.now) }
{
    match words {
        [_, rest @ ..] => rest,
        [] => &[],
    }
}

fn is_printable(byte: u8) -> bool
    ensures { result ≡ is_printable byte }
{
    33 <= byte && byte <= 126
}

fn has_name_bytes(word: &[u8]) -> bool
    ensures { result ≡ has_name_bytes word.now }
{
    word.iter().all(|b| is_printable(*b) && *b != b'#')
}

/// Whether the word is a name.
pub fn is_name(word: &[u8]) -> bool
    ensures { result ≡ is_name word.now }
{
    if word.is_empty() || word.len() > LONGEST_NAME || !has_name_bytes(word) {
        return false;
    }
    word[word.len() - 1] != b'\\'
}

/// Whether each of these words is a name.
pub fn are_names(words: &[&[u8]]) -> bool
    ensures { result ≡ are_names (texts words.now) }
{
    words.iter().all(|w| is_name(*w))
}

fn is_printable_word(word: &[u8]) -> bool
    ensures { result ≡ list_all is_printable word.now }
{
    word.iter().all(|b| is_printable(*b))
}

/// Whether each byte of these words is printable and no blank.
pub fn are_printable(words: &[&[u8]]) -> bool
    ensures { result ≡ list_all (list_all is_printable) (texts words.now) }
{
    words.iter().all(|w| is_printable_word(*w))
}

fn are_marks(word: &[u8]) -> bool
    ensures { result ≡ list_all is_mark word.now }
{
    word.iter().all(|b| matches!(*b, b'0' | b'1' | b'-'))
}

fn plane_of(word: &[u8]) -> Option<bool>
    ensures { result ≡ plane_of word.now }
{
    match word {
        [b'0'] => Some(false),
        [b'1'] => Some(true),
        _ => None,
    }
}

/// The plane of a row of a table with `pins` pins, if the words have the form of such a row.
pub fn row_plane(pins: usize, words: &[&[u8]]) -> Option<bool>
    ensures { result ≡ row_plane pins (texts words.now) }
{
    match words {
        [plane] if pins == 0 => plane_of(plane),
        [marks, plane] if pins > 0 => {
            if marks.len() == pins && are_marks(marks) {
                plane_of(plane)
            } else {
                None
            }
        }
        _ => None,
    }
}
