//! A circuit is written as its AIGER text, gathered in a page; nothing is allocated.
ghost use Rattle.std.specs.Prelude.{ℕ};
ghost use Rattle.semantics.specs.Texts.{line_text};
ghost use Rattle.file_core.specs.Page.{Gathers, Writes, with_page};
ghost use Rattle.aiger_semantics.specs.Text.{header_line, number_line, and_line, aiger_text};
ghost use Rattle.aiger_text.specs.CircuitText.{inputs_text, outputs_text, ands_text, symbols_text, body_text};

use crate::ands::Ands;
use crate::literal::Literal;
use aiger_semantics::and_line::AndLine;
use file_core::fault::FileFault;
use file_core::files::Files;
use file_core::page::{Page, gather_pieces, send};
use itoa::Buffer;
use net_core::name::Name;

/// Puts the line `aag`, the greatest variable and the numbers of inputs, latches, outputs and ANDs.
fn write_header<F: Files>(circuit: &Ands, files: &mut F, page: &mut Page) -> Result<(), FileFault>
    ensures { Gathers result (with_page (F.told files.old) page.old) (with_page (F.told files.new) page.new)
        (line_text (header_line circuit.now)) }
{
    let mut greatest = Buffer::new();
    let mut inputs = Buffer::new();
    let mut outputs = Buffer::new();
    let mut ands = Buffer::new();
    gather_pieces(
        files,
        page,
        &[
            b"aag ",
            greatest.format(circuit.variables()).as_bytes(),
            b" ",
            inputs.format(circuit.inputs().len()).as_bytes(),
            b" 0 ",
            outputs.format(circuit.outputs().len()).as_bytes(),
            b" ",
            ands.format(circuit.lines().len()).as_bytes(),
            b"\n",
        ],
    )
}

/// Puts the line of a number.
fn write_number<F: Files>(number: u64, files: &mut F, page: &mut Page) -> Result<(), FileFault>
    ensures { Gathers result (with_page (F.told files.old) page.old) (with_page (F.told files.new) page.new)
        (line_text (number_line number)) }
{
    let mut digits = Buffer::new();
    gather_pieces(files, page, &[digits.format(number).as_bytes(), b"\n"])
}

fn write_inputs<F: Files>(
    variables: &[u32],
    files: &mut F,
    page: &mut Page,
) -> Result<(), FileFault>
    ensures { Gathers result (with_page (F.told files.old) page.old) (with_page (F.told files.new) page.new)
        (inputs_text variables.now) }
{
    for variable in variables {
        write_number(2 * u64::from(*variable), files, page)?;
    }
    Ok(())
}

fn write_outputs<F: Files>(
    literals: &[Literal],
    files: &mut F,
    page: &mut Page,
) -> Result<(), FileFault>
    ensures { Gathers result (with_page (F.told files.old) page.old) (with_page (F.told files.new) page.new)
        (outputs_text literals.now) }
{
    for literal in literals {
        write_number(u64::from(*literal), files, page)?;
    }
    Ok(())
}

/// Puts the line of an AND.
fn write_and<F: Files>(and: AndLine, files: &mut F, page: &mut Page) -> Result<(), FileFault>
    ensures { Gathers result (with_page (F.told files.old) page.old) (with_page (F.told files.new) page.new)
        (line_text (and_line and)) }
{
    let mut literal = Buffer::new();
    let mut left = Buffer::new();
    let mut right = Buffer::new();
    gather_pieces(
        files,
        page,
        &[
            literal.format(2 * u64::from(and.variable)).as_bytes(),
            b" ",
            left.format(and.left).as_bytes(),
            b" ",
            right.format(and.right).as_bytes(),
            b"\n",
        ],
    )
}

fn write_ands<F: Files>(ands: &[AndLine], files: &mut F, page: &mut Page) -> Result<(), FileFault>
    ensures { Gathers result (with_page (F.told files.old) page.old) (with_page (F.told files.new) page.new)
        (ands_text ands.now) }
{
    for and in ands {
        write_and(*and, files, page)?;
    }
    Ok(())
}

/// Puts the lines before the symbols.
fn write_body<F: Files>(circuit: &Ands, files: &mut F, page: &mut Page) -> Result<(), FileFault>
    ensures { Gathers result (with_page (F.told files.old) page.old) (with_page (F.told files.new) page.new)
        (body_text circuit.now) }
{
    write_header(circuit, files, page)?;
    write_inputs(circuit.inputs(), files, page)?;
    write_outputs(circuit.outputs(), files, page)?;
    write_ands(circuit.lines(), files, page)
}

/// Puts a line for each name: the letter and the place, from 0, and the name.
fn write_symbols<F: Files>(
    letter: u8,
    names: &[Name],
    files: &mut F,
    page: &mut Page,
) -> Result<(), FileFault>
    ensures { Gathers result (with_page (F.told files.old) page.old) (with_page (F.told files.new) page.new)
        (symbols_text letter names.now) }
{
    for i in 0..names.len() {
        let mut place = Buffer::new();
        gather_pieces(
            files,
            page,
            &[
                &[letter],
                place.format(i).as_bytes(),
                b" ",
                names[i].bytes(),
                b"\n",
            ],
        )?;
    }
    Ok(())
}

/// Appends the circuit's AIGER text to the file that is being written. The call takes no memory. After a
/// fault a first part of the text was appended.
pub fn write_aiger<F: Files>(circuit: &Ands, files: &mut F) -> Result<(), FileFault>
    ensures { Writes result (F.told files.old) (F.told files.new) (aiger_text circuit.now) }
{
    let mut page = Page::new();
    write_body(circuit, files, &mut page)?;
    write_symbols(b'i', circuit.input_names(), files, &mut page)?;
    write_symbols(b'o', circuit.output_names(), files, &mut page)?;
    send(files, &mut page)
}
