//! Logs over the clauses 1, -1 2 and -2, read in pieces and given to a new checker.
ghost use Rattle.std.specs.Prelude.{◌≡◌, ◌+◌, ◌^◌, ◌<◌, false, length};

use cnf_core::clause::{ClauseList, Lits};
use cnf_core::cnf::Cnf;
use cnf_core::log::Item;
use cnf_core::lrat_reader::LratReader;
use lrat_check::checker::Checker;
use proof_semantics::lrat_refusal::LratRefusal;
use proof_semantics::step_refusal::StepRefusal;
use std::alloc::{AllocError, Global};
use std::test::Fail;

/// What a log comes to.
#[derive(Clone, Copy, Debug, Drop, PartialEq, Eq)]
enum Verdict {
    /// Each step is accepted, and the last one is the empty clause.
    Done,
    Open,
    Text(LratRefusal),
    Step(StepRefusal),
}

fn read_two(reader: &mut LratReader, first: &[u8], second: &[u8]) -> Result<(), LratRefusal>
    requires going { reader.old.finished ≡ false }
    requires size { length reader.old.text + length first.now + length second.now < 2 ^ 63 }
{
    reader.feed(first)?;
    reader.feed(second)?;
    reader.finish()
}

fn read_bytes(reader: &mut LratReader, text: &[u8]) -> Result<(), LratRefusal>
    requires going { reader.old.finished ≡ false }
    requires size { length reader.old.text + length text.now < 2 ^ 63 }
{
    for &byte in text {
        reader.feed(&[byte])?;
    }
    reader.finish()
}

/// Reads the text in two pieces, cut at `cut`, or byte by byte where `cut` is None.
fn read(reader: &mut LratReader, text: &[u8], cut: Option<usize>) -> Result<(), LratRefusal>
    requires going { reader.old.finished ≡ false }
    requires size { length reader.old.text + length text.now < 2 ^ 63 }
{
    match cut {
        Some(at) => match text.split_at_checked(at) {
            Some((first, second)) => read_two(reader, first, second),
            None => read_two(reader, text, &[]),
        },
        None => read_bytes(reader, text),
    }
}

pub(crate) fn three_clauses(alloc: Global) -> Result<Cnf, AllocError> {
    let mut clauses = ClauseList::new(alloc);
    clauses.push(Lits::from_slice(alloc, &[1])?)?;
    clauses.push(Lits::from_slice(alloc, &[-1, 2])?)?;
    clauses.push(Lits::from_slice(alloc, &[-2])?)?;
    Ok(Cnf::new(2, clauses))
}

/// Gives the items that wait to the checker.
fn check(reader: &mut LratReader, checker: &mut Checker) -> Verdict {
    for _ in 0..100 {
        match reader.next() {
            Some(Item::Add(step)) => {
                if let Err(refusal) = checker.step(&step) {
                    return Verdict::Step(refusal);
                }
            }
            Some(Item::Remove(ids)) => checker.remove(&ids),
            None => break,
        }
    }
    if checker.done() {
        Verdict::Done
    } else {
        Verdict::Open
    }
}

fn judged(alloc: Global, text: &[u8], cut: Option<usize>) -> Result<Verdict, AllocError>
    requires { length text.now < 2 ^ 63 }
{
    let mut reader = LratReader::new(alloc);
    if let Err(refusal) = read(&mut reader, text, cut) {
        return Ok(Verdict::Text(refusal));
    }
    let mut checker = Checker::new(alloc, &three_clauses(alloc)?)?;
    Ok(check(&mut reader, &mut checker))
}

/// Whether the text is judged as wanted byte by byte, and in two pieces wherever it is cut.
fn is_judged(alloc: Global, text: &[u8], wanted: Verdict) -> Result<bool, AllocError>
    requires { length text.now < 2 ^ 63 }
{
    for cut in 0..=text.len() {
        if judged(alloc, text, Some(cut))? != wanted {
            return Ok(false);
        }
    }
    Ok(judged(alloc, text, None)? == wanted)
}

#[test]
fn logs_in_pieces(rt: HostRuntime) -> Result<(), Fail> {
    let cases: [(&[u8], Verdict); 12] = [
        (b"4 0 1 2 3 0", Verdict::Done),
        (b"4 0 1 3 2 0", Verdict::Done),
        (b"4 0 2 1 3 0", Verdict::Step(StepRefusal::NotUnit(2))),
        (b"4 0 1 2 0", Verdict::Step(StepRefusal::NoConflict)),
        (b"4 0 0", Verdict::Step(StepRefusal::NoConflict)),
        (b"3 0 1 2 3 0", Verdict::Step(StepRefusal::NotRising(3))),
        (b"4 0 1 9 3 0", Verdict::Step(StepRefusal::UnknownId(9))),
        (
            b"3 d 1 0\n4 0 1 2 3 0",
            Verdict::Step(StepRefusal::UnknownId(1)),
        ),
        (b"3 d 9 0", Verdict::Open),
        (b"4 0 -1 2 0", Verdict::Text(LratRefusal::Negative(4))),
        (b"4 0 1 2", Verdict::Text(LratRefusal::Cut)),
        (b"4 0 1 x 0", Verdict::Text(LratRefusal::BadByte(6))),
    ];
    for (text, wanted) in cases {
        assert!(rt; text.len() < 100);
        assert!(rt; is_judged(rt.alloc(), text, wanted)?);
    }
    Ok(())
}

// The greatest id may stand in a log, and no id rises above it.
#[test]
fn the_greatest_id(rt: HostRuntime) -> Result<(), Fail> {
    let alloc = rt.alloc();
    let empty: &[u8] = b"9223372036854775807 0 1 2 3 0";
    let further: &[u8] = b"9223372036854775807 0 1 2 3 0\n5 0 1 2 3 0";
    let refused = Verdict::Step(StepRefusal::NotRising(5));
    assert!(rt; empty.len() < 100 && further.len() < 100);
    assert_eq!(rt; judged(alloc, empty, None)?, Verdict::Done);
    assert_eq!(rt; judged(alloc, further, None)?, refused);
    Ok(())
}
