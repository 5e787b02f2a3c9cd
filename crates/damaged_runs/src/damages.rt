//! The bundle of the half adder within 1 with one or two files damaged, and what a check of it answers.
use file_core::lists::FileList;
use file_core::memory_files::MemFiles;
use job_answers::status::Status;
use memory_runs::bundles::whole_bundle;
use memory_runs::half_adder::{CHECK, HALF_ADDER, NAMES};
use memory_runs::held::{add_file, bytes_of, joined};
use memory_runs::runs::run_over;
use std::alloc::{AllocError, Global};
use std::test::Fail;

/// What is done to a file.
#[derive(Clone, Copy)]
enum Damage<'a> {
    /// Nothing.
    Spared,
    /// The file is not there.
    Missing,
    /// Nothing is left of its text.
    Emptied,
    /// The front of its text, which is the first of these, is the second.
    Front(&'a [u8], &'a [u8]),
    /// The end of its text, which is the first of these, is the second.
    End(&'a [u8], &'a [u8]),
    /// Each LF has a CR before it.
    CarriageReturns,
}

/// What a check answers.
#[derive(Clone, Copy)]
enum Answer {
    Verified,
    /// By the clause of this number.
    Refuted(u8),
    ReadFault,
}

/// A file, its damage, and the answer. The log's first item is clause 246; its last item is the empty clause
/// 252, which follows from 248 and 251.
const DAMAGES: [(&[u8], Damage, Answer); 19] = [
    (b"out.lrat", Damage::Emptied, Answer::Refuted(8)),
    (
        b"out.lrat",
        Damage::End(b" 251 0\n", b" 251"),
        Answer::Refuted(8),
    ),
    (
        b"out.lrat",
        Damage::Front(b"246 ", b"9223372036854775808 "),
        Answer::Refuted(8),
    ),
    (
        b"out.lrat",
        Damage::End(b" 251 0\n", b" -251 0\n"),
        Answer::Refuted(8),
    ),
    (
        b"out.lrat",
        Damage::End(b"252 0 248 251 0\n", b"251 d 248 0\n252 0 248 251 0\n"),
        Answer::Refuted(8),
    ),
    (b"out.lrat", Damage::CarriageReturns, Answer::Verified),
    (
        b"out.lrat",
        Damage::End(b"", b"9 d 999999999 0\n"),
        Answer::Verified,
    ),
    (
        b"out.cnf",
        Damage::End(b"\n23 0\n", b"\n"),
        Answer::Refuted(7),
    ),
    (b"out.txt", Damage::End(b"\n", b""), Answer::Refuted(3)),
    (
        b"out.txt",
        Damage::Front(
            b"salsa 2\nmetric abs\nbound 1\nmaximum 1\n",
            b"salsa 2\nmetric abs\nbound 1\nmaximum 01\n",
        ),
        Answer::Refuted(3),
    ),
    (
        b"out.txt",
        Damage::End(
            b"tables 2 2\nliterals 6 1\nminimal yes\n",
            b"tables 2 4294967296\nliterals 6 1\nminimal yes\n",
        ),
        Answer::Refuted(3),
    ),
    (
        b"out.txt",
        Damage::End(b"minimal yes\n", b"minimal no\n"),
        Answer::Verified,
    ),
    (
        b"out.wit",
        Damage::Front(b"10\n", b"10\r\n"),
        Answer::Refuted(5),
    ),
    (b"out.wit", Damage::End(b"", b"00\n"), Answer::Verified),
    (
        b"out.blif",
        Damage::Front(b"", b"# note\n"),
        Answer::Verified,
    ),
    (
        b"out.blif",
        Damage::End(b".end\n", b".names a z\n1 1\n.end\n"),
        Answer::Refuted(7),
    ),
    (
        b"out.txt",
        Damage::Front(
            b"salsa 2\nmetric abs\nbound 1\nmaximum 1\n",
            b"salsa 2\nmetric abs\nbound 1\nmaximum 0\n",
        ),
        Answer::Refuted(6),
    ),
    (
        b"out.txt",
        Damage::End(
            b"literals 6 1\nminimal yes\n",
            b"literals 6 2\nminimal yes\n",
        ),
        Answer::Refuted(9),
    ),
    (b"out.cnf", Damage::Missing, Answer::ReadFault),
];

/// Two files, each with its damage, and the answer. A report that claims too much is refuted before the
/// formula is opened.
const TWO_DAMAGES: [(&[u8], Damage, &[u8], Damage, Answer); 2] = [
    (
        b"out.txt",
        Damage::End(
            b"witness 10\ntables 2 2\nliterals 6 1\nminimal yes\n",
            b"witness 11\ntables 2 2\nliterals 6 1\nminimal yes\n",
        ),
        b"out.wit",
        Damage::Front(b"10\n", b"11\n"),
        Answer::Refuted(6),
    ),
    (
        b"out.txt",
        Damage::Front(
            b"salsa 2\nmetric abs\nbound 1\nmaximum 1\n",
            b"salsa 2\nmetric abs\nbound 1\nmaximum 2\n",
        ),
        b"out.cnf",
        Damage::Missing,
        Answer::Refuted(4),
    ),
];

fn with_front(alloc: Global, text: &[u8], front: &[u8], other: &[u8]) -> Result<Vec<u8>, Fail> {
    match text.strip_prefix(front) {
        Some(rest) => Ok(joined(alloc, other, rest)?),
        None => Err(Fail::new("the text has another front")),
    }
}

fn with_end(alloc: Global, text: &[u8], end: &[u8], other: &[u8]) -> Result<Vec<u8>, Fail> {
    match text.strip_suffix(end) {
        Some(rest) => Ok(joined(alloc, rest, other)?),
        None => Err(Fail::new("the text has another end")),
    }
}

fn with_carriage_returns(alloc: Global, text: &[u8]) -> Result<Vec<u8>, AllocError> {
    let mut lines = Vec::new(alloc);
    for &byte in text {
        if byte == b'\n' {
            lines.push(b'\r')?;
        }
        lines.push(byte)?;
    }
    Ok(lines)
}

/// The text with the damage; none where the file is not there.
fn damaged(alloc: Global, text: &[u8], damage: Damage) -> Result<Option<Vec<u8>>, Fail> {
    Ok(match damage {
        Damage::Spared => Some(Vec::from_slice(alloc, text)?),
        Damage::Missing => None,
        Damage::Emptied => Some(Vec::new(alloc)),
        Damage::Front(front, other) => Some(with_front(alloc, text, front, other)?),
        Damage::End(end, other) => Some(with_end(alloc, text, end, other)?),
        Damage::CarriageReturns => Some(with_carriage_returns(alloc, text)?),
    })
}

/// Adds the file of the bundle with its damage to the list.
fn add_damaged(
    alloc: Global,
    files: &mut FileList,
    whole: &MemFiles,
    name: &[u8],
    damage: Damage,
) -> Result<(), Fail> {
    if let Some(text) = damaged(alloc, bytes_of(whole, name), damage)? {
        add_file(alloc, files, name, &text)?;
    }
    Ok(())
}

/// Adds the half adder, and the files of the bundle but for these two.
fn add_others(
    alloc: Global,
    files: &mut FileList,
    whole: &MemFiles,
    first: &[u8],
    second: &[u8],
) -> Result<(), AllocError> {
    for name in NAMES {
        if name != first && name != second {
            add_file(alloc, files, name, bytes_of(whole, name))?;
        }
    }
    add_file(alloc, files, b"ha.blif", HALF_ADDER)
}

fn is_answer(status: &Status, answer: Answer) -> bool {
    match (status, answer) {
        (Status::Verified, Answer::Verified) | (Status::ReadFault, Answer::ReadFault) => true,
        (Status::Refuted(number), Answer::Refuted(clause)) => *number == clause,
        _ => false,
    }
}

/// What a check of the bundle comes to, where the two files have their damages, if the check puts nothing.
fn checked(
    alloc: Global,
    whole: &MemFiles,
    first: (&[u8], Damage),
    second: (&[u8], Damage),
) -> Result<Status, Fail> {
    let mut files = FileList::new(alloc);
    add_damaged(alloc, &mut files, whole, first.0, first.1)?;
    add_damaged(alloc, &mut files, whole, second.0, second.1)?;
    add_others(alloc, &mut files, whole, first.0, second.0)?;
    let ended = run_over(alloc, CHECK, files)?;
    if ended.sink.bytes().is_empty() {
        Ok(ended.status)
    } else {
        Err(Fail::new("a check puts nothing"))
    }
}

/// Whether a check of the bundle, where this file has the damage, ends with the answer.
fn ends_with(
    alloc: Global,
    whole: &MemFiles,
    name: &[u8],
    damage: Damage,
    answer: Answer,
) -> Result<bool, Fail> {
    let spared = if name == NAMES[0] { NAMES[1] } else { NAMES[0] };
    let status = checked(alloc, whole, (name, damage), (spared, Damage::Spared))?;
    Ok(is_answer(&status, answer))
}

#[test]
fn bundles_that_are_damaged(rt: HostRuntime) -> Result<(), Fail> {
    let whole = whole_bundle(rt.alloc())?;
    for (place, (name, damage, answer)) in DAMAGES.into_iter().enumerate() {
        assert!(rt;
            ends_with(rt.alloc(), &whole, name, damage, answer)?,
            "row {place}"
        );
    }
    Ok(())
}

#[test]
fn bundles_that_are_damaged_twice(rt: HostRuntime) -> Result<(), Fail> {
    let whole = whole_bundle(rt.alloc())?;
    for (place, (name, damage, other, second, answer)) in TWO_DAMAGES.into_iter().enumerate() {
        let status = checked(rt.alloc(), &whole, (name, damage), (other, second))?;
        assert!(rt; is_answer(&status, answer), "row {place}");
    }
    Ok(())
}
