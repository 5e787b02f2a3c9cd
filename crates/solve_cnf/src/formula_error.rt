//! Why a text is not read as a formula.
ghost use Rattle.std.specs.Prelude.{◌≡◌};
ghost use Rattle.solve_cnf.specs.declared.formula_error.ReadError.TheVariants.{OutOfMemory as NoMemory};

use std::alloc::AllocError;
use thiserror::Error;

/// Why a text is not read. Lines are counted from 1.
#[derive(Debug, Drop, Error)]
pub enum ReadError {
    #[error("there is no line `p cnf VARIABLES CLAUSES`")]
    NoHeader,
    #[error("line {line} is not `p cnf VARIABLES CLAUSES` with fewer than 2^31 variables")]
    BadHeader { line: usize },
    #[error("line {line}: a word that is no number")]
    NoNumber { line: usize },
    #[error("line {line}: a literal of no variable")]
    NoVariable { line: usize },
    #[error("the last clause does not end with 0")]
    Unended,
    #[error("the header says {told} clauses, and there are {found}")]
    WrongCount { told: u64, found: usize },
    #[error("out of memory")]
    OutOfMemory,
}

impl From<AllocError> for ReadError {
    ghost from_gives = { λ _ e. e ≡ NoMemory };

    fn from(_: AllocError) -> ReadError {
        ReadError::OutOfMemory
    }
}
