//! The words of lines, and what is wrong with a line of a text of several models. Source: BLIF's `.subckt`.
ghost use Rattle.std.specs.Prelude.{◌≡◌, ◌==◌, IfOk, position};
ghost use Rattle.std.specs.List.{list_all};
ghost use Rattle.text_words.specs.Slices.{texts};
ghost use Rattle.hierarchy_semantics.specs.Models.{is_subckt, binding_of};
ghost use Rattle.hierarchy_semantics.specs.ModelLines.{is_binding, is_use};

use blif_text::line_list::{LogLine, WordList};
use blif_text::statements::{arguments, first_word, is_name};
use std::alloc::{AllocError, Global};
use std::marker::Model;

/// A line's number and its words, which are slices of the line.
#[derive(Drop)]
pub struct Statement<'a> {
    number: u64,
    words: Vec<&'a [u8]>,
}

impl<'a> Model for Statement<'a> {
    ghost use Rattle.blif_semantics.specs.Lines.{Statement};
    ghost use Rattle.text_words.specs.Slices.{texts};

    ghost Value = { Statement };

    ghost view = { λ a. record { line = a.number; words = texts a.words.items } };
}

/// The bytes of each word.
fn slices<'a>(alloc: Global, words: &'a WordList) -> Result<Vec<&'a [u8]>, AllocError>
    ensures { IfOk result (λ v. texts v.items ≡ words.now) }
{
    let mut slices = Vec::new(alloc);
    for word in words.as_slice() {
        slices.push(word.bytes())?;
    }
    Ok(slices)
}

impl<'a> Statement<'a> {
    fn new(alloc: Global, line: &'a LogLine) -> Result<Statement<'a>, AllocError>
        ensures { IfOk result (λ s. s ≡ line.now) }
    {
        Ok(Statement {
            number: line.line,
            words: slices(alloc, &line.words)?,
        })
    }

    /// The number of the line, from 1.
    pub fn number(&self) -> u64
        ensures { result ≡ self.now.line }
    {
        self.number
    }

    /// The words of the line.
    pub fn words(&self) -> &[&'a [u8]]
        ensures { texts result.now ≡ self.now.words }
    {
        &self.words
    }
}

/// The words of each line.
pub fn statements<'a>(alloc: Global, lines: &'a [LogLine]) -> Result<Vec<Statement<'a>>, AllocError>
    ensures { IfOk result (λ v. v.items ≡ lines.now) }
{
    let mut statements = Vec::new(alloc);
    for line in lines {
        statements.push(Statement::new(alloc, line)?)?;
    }
    Ok(statements)
}

/// `FORMAL=ACTUAL`: a port of the model that is used, and a name of the model that uses it.
#[derive(Drop)]
pub struct Binding<'a> {
    pub formal: &'a [u8],
    pub actual: &'a [u8],
}

impl<'a> Model for Binding<'a> {
    ghost use Rattle.hierarchy_semantics.specs.Models.{Binding};

    ghost Value = { Binding };

    ghost view = { λ a. record { formal = a.formal.now; actual = a.actual.now } };
}

/// Where the first `=` is.
fn equals_at(word: &[u8]) -> Option<usize>
    ensures { result ≡ position (λ b. b == 61) word.now }
{
    word.iter().position(|b| *b == b'=')
}

/// A word split at its first `=`.
pub fn binding_of<'a>(word: &'a [u8]) -> Binding<'a>
    ensures { result ≡ binding_of word.now }
{
    match equals_at(word) {
        Some(at) => Binding {
            formal: &word[..at],
            actual: &word[at + 1..],
        },
        None => Binding {
            formal: word,
            actual: &[],
        },
    }
}

/// Whether a line is the use of a model.
pub fn is_subckt(words: &[&[u8]]) -> bool
    ensures { result ≡ is_subckt (texts words.now) }
{
    first_word(words) == b".subckt".as_slice()
}

/// Whether the word binds a name to a name.
fn is_binding(word: &[u8]) -> bool
    ensures { result ≡ is_binding word.now }
{
    let binding = binding_of(word);
    is_name(binding.formal) && is_name(binding.actual)
}

fn are_bindings(words: &[&[u8]]) -> bool
    ensures { result ≡ list_all is_binding (texts words.now) }
{
    words.iter().all(|w| is_binding(*w))
}

/// Whether these words behind `.subckt` are a name and bindings.
pub fn is_use(words: &[&[u8]]) -> bool
    ensures { result ≡ is_use (texts words.now) }
{
    is_name(first_word(words)) && are_bindings(arguments(words))
}
