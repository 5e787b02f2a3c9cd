//! The lines of input vectors, gathered in a page; nothing is allocated.
ghost use Rattle.std.specs.Prelude.{◌≡◌, ◌+◌, ◌≤◌, ◌++◌, length};
ghost use Rattle.file_core.specs.Page.{Gathers, Writes, with_page};
ghost use Rattle.job_semantics.specs.Report.{vectors_text};
ghost use Rattle.bundle_writing.specs.VectorLines.{vector_line, vector_lines};

use crate::bits::bit_byte;
use file_core::fault::FileFault;
use file_core::files::Files;
use file_core::page::{Page, gather, send};
use lane_bits::patterns::Patterns;
use semantics::limits::MOST_INPUTS;

/// Fills a buffer with the line of a vector.
fn fill_line(x: &[bool], line: &mut [u8])
    requires { length line.old ≡ length x.now + 1 }
    ensures { line.new ≡ vector_line x.now }
{
    for (i, bit) in x.iter().enumerate() {
        line[i] = bit_byte(*bit);
    }
    line[x.len()] = b'\n';
}

fn write_vector<F: Files>(x: &[bool], files: &mut F, page: &mut Page) -> Result<(), FileFault>
    requires { length x.now ≤ MOST_INPUTS }
    ensures { Gathers result (with_page (F.told files.old) page.old) (with_page (F.told files.new) page.new)
        (vector_line x.now) }
{
    let mut buffer = [0; MOST_INPUTS + 1];
    let line = &mut buffer[..=x.len()];
    fill_line(x, line);
    gather(files, page, line)
}

fn write_pool<F: Files>(pool: &Patterns, files: &mut F, page: &mut Page) -> Result<(), FileFault>
    ensures { Gathers result (with_page (F.told files.old) page.old) (with_page (F.told files.new) page.new)
        (vector_lines pool.now.vectors) }
{
    let mut buffer = [false; MOST_INPUTS];
    let x = &mut buffer[..pool.inputs() as usize];
    for i in 0..pool.count() {
        pool.get(i, x);
        write_vector(x, files, page)?;
    }
    Ok(())
}

/// Appends the line of the witness and the lines of the pool to the file that is being written. After a fault
/// a first part of this text was appended.
pub fn write_vectors<F: Files>(
    witness: &[bool],
    pool: &Patterns,
    files: &mut F,
) -> Result<(), FileFault>
    requires { length witness.now ≤ MOST_INPUTS }
    ensures { Writes result (F.told files.old) (F.told files.new)
        (vectors_text witness.now pool.now.vectors) }
{
    let mut page = Page::new();
    write_vector(witness, files, &mut page)?;
    write_pool(pool, files, &mut page)?;
    send(files, &mut page)
}
