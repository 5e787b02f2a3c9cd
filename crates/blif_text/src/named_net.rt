//! A net whose pins and outputs are names, as its lines say. Source: BLIF.
ghost use Rattle.std.specs.Prelude.{◌≡◌, [], ◌∷◌, List, IfOk, OnOk, map};
ghost use Rattle.semantics.specs.Texts.{Line};
ghost use Rattle.blif_semantics.specs.Lines.{words_of};
ghost use Rattle.blif_semantics.specs.Reading.{named_net};
ghost use Rattle.blif_text.specs.NamedNets.{nothing_read, ended, row_added, added, with_rest};
ghost use Rattle.blif_text.specs.KeptLines.{table_without_rows, without_rows};
ghost use Rattle.text_words.specs.Slices.{texts};

use crate::joining::LogicalLine;
use crate::named_table::NamedTable;
use crate::statements::{arguments, first_word, kind_of};
use blif_semantics::kind::Kind;
use std::alloc::{AllocError, Global};
use std::marker::Model;
use text_words::words::words_of;

/// What the lines so far say, and the table to which a row that comes next belongs.
#[derive(Drop)]
struct NetSoFar<'a> {
    model: Option<&'a [u8]>,
    inputs: Vec<&'a [u8]>,
    outputs: Vec<&'a [u8]>,
    tables: Vec<NamedTable<'a>>,
    begun: Option<NamedTable<'a>>,
}

impl<'a> Model for NetSoFar<'a> {
    ghost use Rattle.std.specs.Option.{option_map};
    ghost use Rattle.blif_text.specs.NamedNets.{NetSoFar};
    ghost use Rattle.text_words.specs.Slices.{texts};

    ghost Value = { NetSoFar };

    ghost view = { λ a. record {
      model = option_map (λ word. word.now) a.model;
      inputs = texts a.inputs.items;
      outputs = texts a.outputs.items;
      tables = a.tables.items;
      begun = a.begun;
    } };
}

/// A net whose pins and outputs are names.
#[derive(Drop)]
pub struct NamedNet<'a> {
    pub model: &'a [u8],
    pub inputs: Vec<&'a [u8]>,
    pub outputs: Vec<&'a [u8]>,
    pub tables: Vec<NamedTable<'a>>,
}

impl<'a> Model for NamedNet<'a> {
    ghost use Rattle.blif_semantics.specs.Reading.{NamedNet};
    ghost use Rattle.text_words.specs.Slices.{texts};

    ghost Value = { NamedNet };

    ghost view = { λ a. record {
      model = a.model.now;
      inputs = texts a.inputs.items;
      outputs = texts a.outputs.items;
      tables = a.tables.items;
    } };
}

impl<'a> NetSoFar<'a> {
    /// Nothing was read.
    fn new(alloc: Global) -> NetSoFar<'a>
        ensures { result ≡ nothing_read }
    {
        NetSoFar {
            model: None,
            inputs: Vec::new(alloc),
            outputs: Vec::new(alloc),
            tables: Vec::new(alloc),
            begun: None,
        }
    }

    /// Ends the table that may get more rows.
    fn end_table(&mut self) -> Result<(), AllocError>
        ensures { OnOk result (self.new ≡ ended self.old) }
    {
        if let Some(table) = self.begun.take() {
            self.tables.push(table)?;
        }
        Ok(())
    }

    /// Adds a row to the table that may get more rows.
    fn add_row(&mut self, words: &[&'a [u8]]) -> Result<(), AllocError>
        ensures { OnOk result (self.new ≡ row_added self.old (texts words.now)) }
    {
        if let Some(table) = &mut self.begun {
            table.push(words)?;
        }
        Ok(())
    }

    /// Adds a line that is no row. After that no table gets more rows, but for a table that this line begins.
    fn add_statement(&mut self, kind: Kind, words: &[&'a [u8]]) -> Result<(), AllocError>
        ensures { OnOk result (self.new ≡ added kind self.old (texts words.now)) }
    {
        match kind {
            Kind::Model => {
                if self.model.is_none() {
                    self.model = Some(first_word(words));
                }
            }
            Kind::Inputs => self.inputs.extend_from_slice(words)?,
            Kind::Outputs => self.outputs.extend_from_slice(words)?,
            Kind::Names => self.begun = Some(NamedTable::new(*self.tables.allocator(), words)?),
            _ => {}
        }
        Ok(())
    }

    /// Adds a line.
    fn add_line(&mut self, words: &[&'a [u8]]) -> Result<(), AllocError>
        ensures { OnOk result ((rest : List Line)
            → with_rest self.new rest ≡ with_rest self.old (texts words.now ∷ rest)) }
    {
        match kind_of(words) {
            Kind::Row => self.add_row(words),
            kind => {
                self.end_table()?;
                self.add_statement(kind, arguments(words))
            }
        }
    }

    /// The net, with no more lines to come.
    fn finish(mut self) -> Result<NamedNet<'a>, AllocError>
        ensures { IfOk result (λ d. d ≡ with_rest self.entry []) }
    {
        self.end_table()?;
        let NetSoFar {
            model,
            inputs,
            outputs,
            tables,
            ..
        } = self;
        Ok(NamedNet {
            model: model.unwrap_or(b"top"),
            inputs,
            outputs,
            tables,
        })
    }
}

/// The tables without their rows.
fn tables_without_rows<'a>(
    alloc: Global,
    tables: Vec<NamedTable<'a>>,
) -> Result<Vec<NamedTable<'a>>, AllocError>
    ensures { IfOk result (λ v. v.items ≡ map table_without_rows tables.entry.items) }
{
    let mut bare = Vec::new(alloc);
    for table in tables {
        bare.push(table.without_rows())?;
    }
    Ok(bare)
}

/// The net without its rows.
pub fn without_rows<'a>(alloc: Global, net: NamedNet<'a>) -> Result<NamedNet<'a>, AllocError>
    ensures { IfOk result (λ d. d ≡ without_rows net.entry) }
{
    let NamedNet {
        model,
        inputs,
        outputs,
        tables,
    } = net;
    Ok(NamedNet {
        model,
        inputs,
        outputs,
        tables: tables_without_rows(alloc, tables)?,
    })
}

/// The net that these lines say.
#[tactic(auto, unfolding(blif_semantics::specs::Reading::named_net))]
pub fn named_net<'a>(
    alloc: Global,
    lines: &'a [LogicalLine<'a>],
) -> Result<NamedNet<'a>, AllocError>
    ensures { IfOk result (λ d. d ≡ named_net (map (λ l. words_of l.bytes) lines.now)) }
{
    let mut so_far = NetSoFar::new(alloc);
    for line in lines {
        let words = words_of(alloc, line.bytes())?;
        so_far.add_line(&words)?;
    }
    so_far.finish()
}
