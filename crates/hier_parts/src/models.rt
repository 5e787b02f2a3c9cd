//! The models of lines, as slices of them. Source: BLIF's `.model` and `.subckt`.
ghost use Rattle.std.specs.Prelude.{◌≡◌, ◌≤◌, ◌<◌, ◌+◌, length, IfOk, map, drop};
ghost use Rattle.std.specs.Option.{option_map, option_to_list};
ghost use Rattle.blif_semantics.specs.Reading.{model_of, listed};
ghost use Rattle.blif_semantics.specs.Tables.{named, with_rows, rows_first};
ghost use Rattle.text_words.specs.Slices.{texts};
ghost use Rattle.hierarchy_semantics.specs.Models.{no_model, binding_of, subcircuit_of, part_first, parts_of};
ghost use Rattle.hierarchy_semantics.specs.Models.{model_from, hierarchy_of};
ghost use Rattle.hierarchy_semantics.specs.Refusals.{model_names};
ghost use Rattle.hier_parts.specs.Sections.{words_in, part_value, kinds_of, leading, section_end};

use crate::statements::{Binding, Statement, binding_of, is_subckt};
use blif_semantics::kind::Kind;
use blif_text::named_table::NamedTable;
use blif_text::statements::{arguments, first_word, kind_of};
use std::alloc::{AllocError, Global};
use std::marker::Model;

/// The use of a model, in the line of this number.
#[derive(Drop)]
pub struct Subcircuit<'a> {
    pub line: u64,
    pub model: &'a [u8],
    pub bindings: Vec<Binding<'a>>,
}

impl<'a> Model for Subcircuit<'a> {
    ghost use Rattle.hierarchy_semantics.specs.Models.{Subcircuit};

    ghost Value = { Subcircuit };

    ghost view = { λ a. record { line = a.line; model = a.model.now; bindings = a.bindings.items } };
}

/// What stands in a model, in the order of its statements.
#[derive(Drop)]
pub enum Part<'a> {
    Names(NamedTable<'a>),
    Use(Subcircuit<'a>),
}

/// A model: its ports in the order of the text, some of which are inputs and some outputs, and its parts.
#[derive(Drop)]
pub struct BlifModel<'a> {
    pub name: &'a [u8],
    pub ports: Vec<&'a [u8]>,
    pub inputs: Vec<&'a [u8]>,
    pub outputs: Vec<&'a [u8]>,
    pub parts: Vec<Part<'a>>,
}

impl<'a> Model for BlifModel<'a> {
    ghost use Rattle.std.specs.Prelude.{map};
    ghost use Rattle.hierarchy_semantics.specs.Models.{BlifModel};
    ghost use Rattle.text_words.specs.Slices.{texts};
    ghost use Rattle.hier_parts.specs.Sections.{part_value};

    ghost Value = { BlifModel };

    ghost view = { λ a. record {
      name = a.name.now;
      ports = texts a.ports.items;
      inputs = texts a.inputs.items;
      outputs = texts a.outputs.items;
      parts = map part_value a.parts.items;
    } };
}

impl<'a> BlifModel<'a> {
    /// The empty model.
    pub fn none(alloc: Global) -> BlifModel<'a>
        ensures { result ≡ no_model }
    {
        BlifModel {
            name: &[],
            ports: Vec::new(alloc),
            inputs: Vec::new(alloc),
            outputs: Vec::new(alloc),
            parts: Vec::new(alloc),
        }
    }
}

fn bindings<'a>(alloc: Global, words: &[&'a [u8]]) -> Result<Vec<Binding<'a>>, AllocError>
    ensures { IfOk result (λ v. v.items ≡ map binding_of (texts words.now)) }
{
    let mut bindings = Vec::new(alloc);
    for word in words {
        bindings.push(binding_of(word))?;
    }
    Ok(bindings)
}

/// The use of a model that a line is.
fn use_of<'a>(alloc: Global, s: &Statement<'a>) -> Result<Subcircuit<'a>, AllocError>
    ensures { IfOk result (λ c. c ≡ subcircuit_of s.now) }
{
    let words = arguments(s.words());
    Ok(Subcircuit {
        line: s.number(),
        model: first_word(words),
        bindings: bindings(alloc, arguments(words))?,
    })
}

/// The table of these names, with the rows that the lines begin with.
fn table<'a>(
    alloc: Global,
    names: &[&'a [u8]],
    lines: &[Statement<'a>],
) -> Result<NamedTable<'a>, AllocError>
    ensures { IfOk result (λ t. t ≡ with_rows (named (texts names.now)) (rows_first (words_in lines.now))) }
{
    let mut table = NamedTable::new(alloc, names)?;
    for line in lines {
        if kind_of(line.words()) != Kind::Row {
            return Ok(table);
        }
        table.push(line.words())?;
    }
    Ok(table)
}

/// The part of a model that a line begins, if it begins one.
fn part_first<'a>(
    alloc: Global,
    s: &Statement<'a>,
    lines: &[Statement<'a>],
) -> Result<Option<Part<'a>>, AllocError>
    ensures { IfOk result (λ p. option_to_list (option_map part_value p)
        ≡ part_first s.now (words_in lines.now)) }
{
    let words = s.words();
    if is_subckt(words) {
        Ok(Some(Part::Use(use_of(alloc, s)?)))
    } else if kind_of(words) == Kind::Names {
        Ok(Some(Part::Names(table(alloc, arguments(words), lines)?)))
    } else {
        Ok(None)
    }
}

/// The parts of a model of these lines.
fn parts_of<'a>(alloc: Global, lines: &[Statement<'a>]) -> Result<Vec<Part<'a>>, AllocError>
    ensures { IfOk result (λ v. map part_value v.items ≡ parts_of lines.now) }
{
    let mut parts = Vec::new(alloc);
    for i in 0..lines.len() {
        if let Some(part) = part_first(alloc, &lines[i], &lines[i + 1..])? {
            parts.push(part)?;
        }
    }
    Ok(parts)
}

/// Which ports are listed.
#[derive(Clone, Copy, Drop)]
pub enum Listing {
    Ports,
    Inputs,
    Outputs,
}

/// Whether a line of this kind lists such ports.
fn lists(listing: Listing, kind: Kind) -> bool
    ensures { result ≡ kinds_of listing kind }
{
    match listing {
        Listing::Ports => matches!(kind, Kind::Inputs | Kind::Outputs),
        Listing::Inputs => matches!(kind, Kind::Inputs),
        Listing::Outputs => matches!(kind, Kind::Outputs),
    }
}

/// The ports in the order of the lines.
fn listed<'a>(
    alloc: Global,
    listing: Listing,
    lines: &[Statement<'a>],
) -> Result<Vec<&'a [u8]>, AllocError>
    ensures { IfOk result (λ v. texts v.items ≡ listed (kinds_of listing) (words_in lines.now)) }
{
    let mut names = Vec::new(alloc);
    for line in lines {
        let words = line.words();
        if lists(listing, kind_of(words)) {
            names.extend_from_slice(arguments(words))?;
        }
    }
    Ok(names)
}

/// The name that the `.model` line gives, or `top`.
fn model_of<'a>(lines: &[Statement<'a>]) -> &'a [u8]
    ensures { result.now ≡ model_of (words_in lines.now) }
{
    for line in lines {
        if kind_of(line.words()) == Kind::Model {
            return first_word(arguments(line.words()));
        }
    }
    b"top"
}

/// The model of these lines.
fn model_from<'a>(alloc: Global, lines: &[Statement<'a>]) -> Result<BlifModel<'a>, AllocError>
    ensures { IfOk result (λ m. m ≡ model_from lines.now) }
{
    Ok(BlifModel {
        name: model_of(lines),
        ports: listed(alloc, Listing::Ports, lines)?,
        inputs: listed(alloc, Listing::Inputs, lines)?,
        outputs: listed(alloc, Listing::Outputs, lines)?,
        parts: parts_of(alloc, lines)?,
    })
}

/// The number of lines before the first `.model`.
fn leading(lines: &[Statement]) -> usize
    ensures is { result ≡ leading lines.now }
    ensures within { result ≤ length lines.now }
{
    for i in 0..lines.len() {
        if kind_of(lines[i].words()) == Kind::Model {
            return i;
        }
    }
    lines.len()
}

/// The end of the model that begins here: the place of the next `.model`, or the end of the lines.
fn section_end(lines: &[Statement], start: usize) -> usize
    requires { start < length lines.now }
    ensures is { result ≡ section_end lines.now start }
    ensures more { start < result }
    ensures within { result ≤ length lines.now }
{
    start + 1 + leading(&lines[start + 1..])
}

/// The models of lines. The lines before any `.model` are a model of their own.
pub fn hierarchy_of<'a>(
    alloc: Global,
    lines: &[Statement<'a>],
) -> Result<Vec<BlifModel<'a>>, AllocError>
    ensures { IfOk result (λ v. v.items ≡ hierarchy_of lines.now) }
{
    let mut models = Vec::new(alloc);
    if lines.is_empty() {
        models.push(model_from(alloc, lines)?)?;
        return Ok(models);
    }
    let mut start = 0;
    while start < lines.len() {
        let end = section_end(lines, start);
        models.push(model_from(alloc, &lines[start..end])?)?;
        start = end;
    }
    Ok(models)
}

/// The names of the models.
pub fn model_names<'a>(alloc: Global, models: &[BlifModel<'a>]) -> Result<Vec<&'a [u8]>, AllocError>
    ensures { IfOk result (λ v. texts v.items ≡ model_names models.now) }
{
    let mut names = Vec::new(alloc);
    for model in models {
        names.push(model.name)?;
    }
    Ok(names)
}
