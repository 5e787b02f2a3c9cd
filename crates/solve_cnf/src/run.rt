//! The solver over a text, and the words of the command line.
ghost use Rattle.std.specs.Prelude.{◌≡◌, ◌≤◌, OnOk, IfErr};
ghost use Rattle.solve_cnf.specs.Run.{limit_of, IsAnswered, HasFailed};
ghost use Rattle.solve_cnf.specs.declared.run.RunError.TheVariants.{Refused as RefusedText};
ghost use Rattle.solve_cnf.specs.declared.run.RunError.TheVariants.{OutOfMemory as NoMemory};
ghost use Rattle.solve_cnf.specs.declared.run.RunError.TheVariants.{Write as NotWritten};

use crate::formula_error::ReadError;
use crate::numbers::digits_number;
use crate::reading::read_formula;
use crate::writing::write_answer;
use cdcl_core::solve::solve;
use cnf_core::log::Log;
use std::alloc::{AllocError, Global};
use std::io::{self, Write};
use thiserror::Error;

/// Why there is no answer.
#[derive(Debug, Drop, Error)]
pub enum RunError {
    #[error("{0}")]
    Refused(ReadError),
    #[error("out of memory")]
    OutOfMemory,
    #[error("the answer cannot be written: {0}")]
    Write(io::Error),
}

impl From<ReadError> for RunError {
    ghost from_gives = { λ told e. e ≡ RefusedText told };

    fn from(told: ReadError) -> RunError {
        RunError::Refused(told)
    }
}

impl From<AllocError> for RunError {
    ghost from_gives = { λ _ e. e ≡ NoMemory };

    fn from(_: AllocError) -> RunError {
        RunError::OutOfMemory
    }
}

impl From<io::Error> for RunError {
    ghost from_gives = { λ error e. e ≡ NotWritten error };

    fn from(error: io::Error) -> RunError {
        RunError::Write(error)
    }
}

/// The conflicts that a word allows.
pub fn limit_of(word: &[u8]) -> Option<u64>
    ensures { result ≡ limit_of word.now }
{
    match digits_number(word) {
        Some(limit) if limit >= 1 => Some(limit),
        _ => None,
    }
}

/// Reads the text, solves its formula within `limit` conflicts, and writes the answer.
pub fn run<W: Write>(alloc: Global, text: &[u8], limit: u64, out: &mut W) -> Result<(), RunError>
    requires { 1 ≤ limit }
    ensures ok { OnOk result (IsAnswered text.now limit (W.contents out.old) (W.contents out.new)) }
    ensures err { IfErr result (HasFailed text.now (W.contents out.old) (W.contents out.new)) }
{
    let cnf = read_formula(alloc, text)?;
    let answer = solve(alloc, &cnf, &Log::new(alloc), limit)?;
    write_answer(out, &answer)?;
    out.flush()?;
    Ok(())
}
