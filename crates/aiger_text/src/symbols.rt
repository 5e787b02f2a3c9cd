//! The lines of symbols. Source: the ASCII form of AIGER.
ghost use Rattle.std.specs.Prelude.{◌≡◌, ℕ, ◌+◌, ◌<◌, ◌^◌, ◌==◌, true, List, [], ◌∷◌, Ok, length};
ghost use Rattle.std.specs.Prelude.{slice_index_or, slice_set, IfOk, IfErr};
ghost use Rattle.semantics.specs.Texts.{Bytes};
ghost use Rattle.aiger_semantics.specs.CircuitLines.{Symbol as SymbolValue, places, is_new, symbols_after};
ghost use Rattle.aiger_semantics.specs.CircuitLines.{before_comment};
ghost use Rattle.aiger_text.specs.Refusals.{Tells};
ghost use Rattle.aiger_text.specs.SymbolTexts.{AreTextsOf, IsSymbolTexts};
ghost use Rattle.text_words.specs.Slices.{texts};

use crate::refusal::AigerRefusal;
use crate::symbol::{Symbol, begins_comment, symbol_of};
use aiger_semantics::header::Header;
use std::alloc::{AllocError, Global};
use std::marker::Model;

/// The texts that symbols give to the places of inputs and of outputs; a place to which no symbol gives a
/// text has the empty text.
#[derive(Drop)]
pub(crate) struct SymbolTexts<'a> {
    pub(crate) inputs: Vec<&'a [u8]>,
    pub(crate) outputs: Vec<&'a [u8]>,
}

impl<'a> Model for SymbolTexts<'a> {
    ghost use Rattle.aiger_text.specs.SymbolTexts.{SymbolTexts};
    ghost use Rattle.text_words.specs.Slices.{texts};

    ghost Value = { SymbolTexts };

    ghost view = { λ a. record { inputs = texts a.inputs.items; outputs = texts a.outputs.items } };
}

/// `count` empty texts.
fn no_texts<'a>(alloc: Global, count: u32) -> Result<Vec<&'a [u8]>, AllocError>
    ensures size { IfOk result (λ none. length none.items ≡ count) }
    ensures empty { IfOk result
        (λ none. (place : ℕ) → place < count → slice_index_or (texts none.items) place [] ≡ []) }
{
    let mut none: Vec<&'a [u8]> = Vec::new(alloc);
    for _ in 0..count {
        none.push(b"")?;
    }
    Ok(none)
}

/// Gives a place a text, if it has none yet, and returns whether it did.
fn put<'a>(given: &mut [&'a [u8]], place: usize, text: &'a [u8]) -> bool
    requires { place < length given.old }
    ensures new { result ≡ (length (slice_index_or (texts given.old) place []) == 0) }
    ensures given { result ≡ true → texts given.new ≡ slice_set (texts given.old) place text.now }
{
    if !given[place].is_empty() {
        return false;
    }
    given[place] = text;
    true
}

impl<'a> SymbolTexts<'a> {
    /// The texts where there is no symbol.
    fn new(alloc: Global, header: &Header) -> Result<SymbolTexts<'a>, AllocError>
        ensures { IfOk result (λ given. IsSymbolTexts header.now [] given) }
    {
        Ok(SymbolTexts {
            inputs: no_texts(alloc, header.inputs)?,
            outputs: no_texts(alloc, header.outputs)?,
        })
    }

    /// Adds a symbol, if no symbol stands at its place, and returns whether it did.
    fn add(&mut self, header: &Header, symbol: &Symbol<'a>) -> bool
        requires place { symbol.now.place < places header.now symbol.now.letter }
        requires sizes { (length self.old.inputs ≡ header.now.inputs)
            × (length self.old.outputs ≡ header.now.outputs) }
        ensures new { (symbols : List SymbolValue) → IsSymbolTexts header.now symbols self.old
            → result ≡ is_new symbols symbol.now }
        ensures added { result ≡ true
            → (symbols : List SymbolValue) → IsSymbolTexts header.now symbols self.old
            → IsSymbolTexts header.now (symbol.now ∷ symbols) self.new }
    {
        let place = symbol.place as usize;
        if symbol.letter == b'i' {
            put(&mut self.inputs, place, symbol.text)
        } else {
            put(&mut self.outputs, place, symbol.text)
        }
    }
}

/// The lines before the one that ends the reading.
pub(crate) fn before_comment<'a, 'b>(lines: &'b [&'a [u8]]) -> &'b [&'a [u8]]
    ensures { texts result.now ≡ before_comment (texts lines.now) }
{
    for (i, line) in lines.iter().enumerate() {
        if begins_comment(line) {
            return &lines[..i];
        }
    }
    lines
}

/// The symbols of these lines. The first line has this number.
pub(crate) fn read_symbols<'a>(
    alloc: Global,
    header: &Header,
    lines: &[&'a [u8]],
    first: u64,
) -> Result<SymbolTexts<'a>, AigerRefusal>
    requires { first < 2 ^ 63 }
    ensures ok { IfOk result (λ given. (symbols : List SymbolValue)
        × (symbols_after header.now first [] (texts lines.now) ≡ Ok symbols)
        × IsSymbolTexts header.now symbols given) }
    ensures err { IfErr result (λ told. Tells told (symbols_after header.now first [] (texts lines.now))) }
{
    let mut given = SymbolTexts::new(alloc, header)?;
    for (i, line) in lines.iter().enumerate() {
        let Some(symbol) = symbol_of(header, line) else {
            return Err(AigerRefusal::Symbol(first + i as u64));
        };
        if !given.add(header, &symbol) {
            return Err(AigerRefusal::Symbol(first + i as u64));
        }
    }
    Ok(given)
}
