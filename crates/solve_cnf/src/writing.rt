//! Answers as texts. Source: the output of SAT solvers, and LRAT.
ghost use Rattle.std.specs.Prelude.{◌<◌, [], ◌∷◌, ◌++◌, pos, neg_ℤ, if◌then◌else◌, OnOk};
ghost use Rattle.std.specs.Fmt.{decimal, signed_decimal};
ghost use Rattle.std.specs.Io.KnownBytes.{Appends};
ghost use Rattle.semantics.specs.Texts.{line_text};
ghost use Rattle.proof_semantics.specs.Lrat.{lrat_text};
ghost use Rattle.solve_cnf.specs.Writing.{model_line, answer_text};

use cdcl_core::answer::Answer;
use cnf_core::log::Item;
use cnf_core::lrat_text::LratText;
use itoa::Buffer;
use std::io::{self, Write};

/// The number of bytes of a log that are written at once.
const PAGE_BYTES: usize = 4096;

/// Writes the number and a blank.
fn write_number<W: Write>(out: &mut W, number: usize) -> io::Result<()>
    ensures { OnOk result (Appends (W.contents out.old) (W.contents out.new) (decimal number ++ 32 ∷ [])) }
{
    let mut buffer = Buffer::new();
    out.write_all(buffer.format(number).as_bytes())?;
    out.write_all(b" ")
}

/// Writes the literal of a variable, and a blank.
fn write_literal<W: Write>(out: &mut W, variable: usize, bit: bool) -> io::Result<()>
    requires { 0 < variable }
    ensures { OnOk result
        (Appends (W.contents out.old) (W.contents out.new)
        (signed_decimal (if bit then pos variable else neg_ℤ (pos variable)) ++ 32 ∷ [])) }
{
    if !bit {
        out.write_all(b"-")?;
    }
    write_number(out, variable)
}

/// Writes the line of the literals that are true.
fn write_model<W: Write>(out: &mut W, bits: &[bool]) -> io::Result<()>
    ensures { OnOk result
        (Appends (W.contents out.old) (W.contents out.new) (line_text (model_line bits.now))) }
{
    out.write_all(b"v ")?;
    for (place, bit) in bits.iter().enumerate() {
        write_literal(out, place + 1, *bit)?;
    }
    out.write_all(b"0\n")
}

/// Writes a line for each item.
fn write_log<W: Write>(out: &mut W, items: &[Item]) -> io::Result<()>
    ensures { OnOk result (Appends (W.contents out.old) (W.contents out.new) (lrat_text items.now)) }
{
    let mut text = LratText::new(items);
    let mut page = [0; PAGE_BYTES];
    loop {
        let count = text.fill(&mut page);
        if count == 0 {
            return Ok(());
        }
        out.write_all(&page[..count])?;
    }
}

/// Writes the answer: a line that says which answer it is, and then its model or its log.
pub fn write_answer<W: Write>(out: &mut W, answer: &Answer) -> io::Result<()>
    ensures { OnOk result
        (Appends (W.contents out.old) (W.contents out.new) (answer_text answer.now)) }
{
    match answer {
        Answer::Model(bits) => {
            out.write_all(b"s SATISFIABLE\n")?;
            write_model(out, bits.as_slice())
        }
        Answer::Refuted(log) => {
            out.write_all(b"s UNSATISFIABLE\n")?;
            write_log(out, log.as_slice())
        }
        Answer::Spent(log) => {
            out.write_all(b"s UNKNOWN\n")?;
            write_log(out, log.as_slice())
        }
    }
}
