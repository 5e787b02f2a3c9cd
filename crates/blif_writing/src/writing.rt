//! A net is written as its BLIF text, gathered in a page; nothing is allocated.
ghost use Rattle.std.specs.Prelude.{◌≡◌, ◌<◌, [], ◌∷◌, ◌++◌, All};
ghost use Rattle.semantics.specs.Texts.{line_text, bit_byte};
ghost use Rattle.semantics.specs.Net.{signal_count, signal_names};
ghost use Rattle.semantics.specs.Blif.{mark_byte, row_line, names_line, blif_text};
ghost use Rattle.file_core.specs.Page.{Gathers, Writes, with_page};
ghost use Rattle.blif_writing.specs.NetText.{blank_words, blank_names, marks_text, rows_text, table_text};
ghost use Rattle.blif_writing.specs.NetText.{tables_text, header_text};

use file_core::fault::FileFault;
use file_core::files::Files;
use file_core::page::{Page, gather, gather_pieces, send};
use net_core::items::Signal;
use net_core::mark::Mark;
use net_core::name::Name;
use net_core::net::Net;
use net_core::row::Row;
use net_core::table::Table;

/// The character of a mark.
fn mark_byte(mark: Mark) -> u8
    ensures { result ≡ mark_byte mark }
{
    match mark {
        Mark::Zero => b'0',
        Mark::One => b'1',
        Mark::Dash => b'-',
    }
}

/// The digit of a plane.
fn plane_byte(plane: bool) -> u8
    ensures { result ≡ bit_byte plane }
{
    if plane { b'1' } else { b'0' }
}

/// Puts a blank and a name into the page.
fn write_name<F: Files>(name: &Name, files: &mut F, page: &mut Page) -> Result<(), FileFault>
    ensures { Gathers result (with_page (F.told files.old) page.old) (with_page (F.told files.new) page.new)
        (32 ∷ name.now) }
{
    gather_pieces(files, page, &[b" ", name.bytes()])
}

/// Puts a blank and a name for each input.
fn write_inputs<F: Files>(net: &Net, files: &mut F, page: &mut Page) -> Result<(), FileFault>
    ensures { Gathers result (with_page (F.told files.old) page.old) (with_page (F.told files.new) page.new)
        (blank_words net.now.inputs) }
{
    for s in 0..net.inputs() {
        write_name(net.signal_name(s), files, page)?;
    }
    Ok(())
}

/// Puts a blank and a name for each output.
fn write_outputs<F: Files>(net: &Net, files: &mut F, page: &mut Page) -> Result<(), FileFault>
    ensures { Gathers result (with_page (F.told files.old) page.old) (with_page (F.told files.new) page.new)
        (blank_names (signal_names net.now) net.now.outputs) }
{
    for i in 0..net.outputs() {
        write_name(net.signal_name(net.output(i)), files, page)?;
    }
    Ok(())
}

/// Puts a blank and a name for each of these signals.
fn write_signals<F: Files>(
    net: &Net,
    signals: &[Signal],
    files: &mut F,
    page: &mut Page,
) -> Result<(), FileFault>
    requires { All (λ s. s < signal_count net.now) signals.now }
    ensures { Gathers result (with_page (F.told files.old) page.old) (with_page (F.told files.new) page.new)
        (blank_names (signal_names net.now) signals.now) }
{
    for s in signals {
        write_name(net.signal_name(*s), files, page)?;
    }
    Ok(())
}

/// Puts the three lines before the tables.
fn write_header<F: Files>(net: &Net, files: &mut F, page: &mut Page) -> Result<(), FileFault>
    ensures { Gathers result (with_page (F.told files.old) page.old) (with_page (F.told files.new) page.new)
        (header_text net.now) }
{
    gather_pieces(
        files,
        page,
        &[b".model ", net.model().bytes(), b"\n.inputs"],
    )?;
    write_inputs(net, files, page)?;
    gather(files, page, b"\n.outputs")?;
    write_outputs(net, files, page)?;
    gather(files, page, b"\n")
}

/// Puts the line that begins a table.
fn write_names_line<F: Files>(
    net: &Net,
    table: &Table,
    files: &mut F,
    page: &mut Page,
) -> Result<(), FileFault>
    requires { All (λ s. s < signal_count net.now) table.now.pins }
    ensures { Gathers result (with_page (F.told files.old) page.old) (with_page (F.told files.new) page.new)
        (line_text (names_line (signal_names net.now) table.now)) }
{
    gather(files, page, b".names")?;
    write_signals(net, table.pins().as_slice(), files, page)?;
    gather_pieces(files, page, &[b" ", table.name().bytes(), b"\n"])
}

fn write_marks<F: Files>(marks: &[Mark], files: &mut F, page: &mut Page) -> Result<(), FileFault>
    ensures { Gathers result (with_page (F.told files.old) page.old) (with_page (F.told files.new) page.new)
        (marks_text marks.now) }
{
    for mark in marks {
        gather(files, page, &[mark_byte(*mark)])?;
    }
    Ok(())
}

/// Puts the line of a row: the marks, if there are any, and the plane.
fn write_row<F: Files>(
    marks: &[Mark],
    plane: bool,
    files: &mut F,
    page: &mut Page,
) -> Result<(), FileFault>
    ensures { Gathers result (with_page (F.told files.old) page.old) (with_page (F.told files.new) page.new)
        (line_text (row_line plane marks.now)) }
{
    if marks.is_empty() {
        return gather(files, page, &[plane_byte(plane), b'\n']);
    }
    write_marks(marks, files, page)?;
    gather(files, page, &[b' ', plane_byte(plane), b'\n'])
}

fn write_rows<F: Files>(
    rows: &[Row],
    plane: bool,
    files: &mut F,
    page: &mut Page,
) -> Result<(), FileFault>
    ensures { Gathers result (with_page (F.told files.old) page.old) (with_page (F.told files.new) page.new)
        (rows_text plane rows.now) }
{
    for row in rows {
        write_row(row.as_slice(), plane, files, page)?;
    }
    Ok(())
}

fn write_table<F: Files>(
    net: &Net,
    table: &Table,
    files: &mut F,
    page: &mut Page,
) -> Result<(), FileFault>
    requires { All (λ s. s < signal_count net.now) table.now.pins }
    ensures { Gathers result (with_page (F.told files.old) page.old) (with_page (F.told files.new) page.new)
        (table_text (signal_names net.now) table.now) }
{
    write_names_line(net, table, files, page)?;
    write_rows(table.rows().as_slice(), table.plane(), files, page)
}

fn write_tables<F: Files>(net: &Net, files: &mut F, page: &mut Page) -> Result<(), FileFault>
    ensures { Gathers result (with_page (F.told files.old) page.old) (with_page (F.told files.new) page.new)
        (tables_text (signal_names net.now) net.now.tables) }
{
    for t in 0..net.tables() {
        write_table(net, net.table(t), files, page)?;
    }
    Ok(())
}

/// Appends the net's BLIF text to the file that is being written. After a fault a first part of this text was
/// appended.
pub fn write_blif<F: Files>(net: &Net, files: &mut F) -> Result<(), FileFault>
    ensures { Writes result (F.told files.old) (F.told files.new) (blif_text net.now) }
{
    let mut page = Page::new();
    write_header(net, files, &mut page)?;
    write_tables(net, files, &mut page)?;
    gather(files, &mut page, b".end\n")?;
    send(files, &mut page)
}
