//! How far the work is, on a terminal: one line, made anew at most once a second, and taken away at the end;
//! and how long its parts took, in one line at the end.
ghost use Rattle.std.specs.Prelude.{◌≡◌, IsTrue};

use progress::progress::Progress;
use std::env::{self, VarError};
use std::rt::Env;
use std::time::{Clock, Duration, Instant};

/// The variable of the environment that keeps the program from telling how far it is.
const QUIET: &str = "SALSA_QUIET";

/// The variable that lets the program tell how long the parts of a search took.
const TIMES: &str = "SALSA_TIMES";

/// What goes back to the start of the line and takes away what stood there.
const CLEAR: &str = "\r\x1b[K";

/// What was told of the work last.
#[derive(Drop)]
enum Stage {
    /// The moves of table `table`, one of `tables` tables, are tried.
    Chain { table: u32, tables: u32 },
    /// The greatest error lies between these.
    Maximum { low: u128, high: u128 },
}

/// Standard error, where that is a terminal and its user wants to see the work go on.
#[derive(Drop)]
pub struct Terminal<'a, R: Clock + Eprint> {
    runtime: &'a R,
    is_shown: bool,
    has_line: bool,
    last: Option<Instant>,
    first: Option<u64>,
    literals: u64,
    stage: Stage,
    conflicts: u64,
    parts: Parts,
}

/// Where the parts of the work begin, as far as they are timed, and what was done in the first.
#[derive(Drop)]
struct Parts {
    is_timed: bool,
    chain: Option<Instant>,
    maximum: Option<Instant>,
    log: Option<Instant>,
    members: u64,
    questions: u64,
}

/// The milliseconds from one moment to another, none where one of them is not known.
fn milliseconds(from: Option<Instant>, to: Option<Instant>) -> u128 {
    match (from, to) {
        (Some(from), Some(to)) => to.saturating_duration_since(from).as_millis(),
        _ => 0,
    }
}

impl<'a, R: Clock + Eprint + Env + AllocGlobal> Terminal<'a, R> {
    /// Standard error as the user's variables want it, which `is_terminal` or not.
    pub fn of_user(runtime: &'a R, is_terminal: bool) -> Self
        ensures { IsTrue result.is_shown → IsTrue is_terminal }
    {
        let is_shown = is_terminal && matches!(env::var(runtime, QUIET), Err(VarError::NotPresent));
        let is_timed = env::var(runtime, TIMES).is_ok();
        Terminal::new(runtime, is_shown, is_timed)
    }
}

impl<'a, R: Clock + Eprint> Terminal<'a, R> {
    /// Nothing was told yet. A line is shown only where `is_shown`, and the parts are timed only where
    /// `is_timed`.
    pub fn new(runtime: &'a R, is_shown: bool, is_timed: bool) -> Self
        ensures shown { result.is_shown ≡ is_shown }
        ensures timed { result.parts.is_timed ≡ is_timed }
    {
        Terminal {
            runtime,
            is_shown,
            has_line: false,
            last: None,
            first: None,
            literals: 0,
            stage: Stage::Chain {
                table: 0,
                tables: 0,
            },
            conflicts: 0,
            parts: Parts {
                is_timed,
                chain: None,
                maximum: None,
                log: None,
                members: 0,
                questions: 0,
            },
        }
    }

    /// The moment, where the parts are timed and the clock tells it.
    fn moment(&self) -> Option<Instant> {
        if self.parts.is_timed {
            Instant::now(self.runtime).ok()
        } else {
            None
        }
    }

    /// Whether a second has passed since the last line, or since the work began.
    fn is_due(&mut self) -> bool {
        let Ok(now) = Instant::now(self.runtime) else {
            return false;
        };
        let Some(last) = self.last else {
            self.last = Some(now);
            return false;
        };
        if now.saturating_duration_since(last) < Duration::from_secs(1) {
            return false;
        }
        self.last = Some(now);
        true
    }

    /// Makes the line anew. Where it can't be written nothing is lost.
    fn show(&mut self) {
        self.has_line = true;
        let first = self.first.unwrap_or(self.literals);
        let literals = self.literals;
        let conflicts = self.conflicts;
        let _ = match self.stage {
            Stage::Chain { table, tables } => {
                eprint!(self.runtime;
                    "{CLEAR}salsa: {first} literals, now {literals}; moves of table {table} of {tables}; {conflicts} conflicts"
                )
            }
            Stage::Maximum { low, high } => {
                eprint!(self.runtime;
                    "{CLEAR}salsa: {first} literals, now {literals}; the greatest error is {low} to {high}; {conflicts} conflicts"
                )
            }
        };
    }

    /// Shows the line where it is due.
    fn update(&mut self) {
        if self.is_shown && self.is_due() {
            self.show();
        }
    }

    /// Takes the line away, if there is one.
    pub fn clear(&self) {
        if self.has_line {
            let _ = eprint!(self.runtime; "{CLEAR}");
        }
    }

    /// Tells how many moves were made, how many questions of the chain went to the solver, and how many
    /// milliseconds the chain, the search for the greatest error, and the log with the files took. Nothing is
    /// told where no search was timed.
    pub fn tell_parts(&self) {
        let parts = &self.parts;
        if parts.chain.is_none() {
            return;
        }
        let moves = parts.members.saturating_sub(1);
        let questions = parts.questions;
        let chain = milliseconds(parts.chain, parts.maximum);
        let maximum = milliseconds(parts.maximum, parts.log);
        let log = milliseconds(parts.log, self.moment());
        let _ = eprintln!(self.runtime;
            "salsa: {moves} moves, {questions} questions to the solver; ms of chain {chain}, greatest error {maximum}, log {log}"
        );
    }
}

impl<R: Clock + Eprint> Progress for Terminal<'_, R> {
    fn reached(&mut self, literals: u64) {
        if self.first.is_none() {
            self.first = Some(literals);
        }
        self.literals = literals;
        self.parts.members = self.parts.members.saturating_add(1);
        if self.parts.chain.is_none() {
            self.parts.chain = self.moment();
        }
        self.update();
    }

    fn trying(&mut self, table: u32, tables: u32) {
        self.stage = Stage::Chain { table, tables };
        self.update();
    }

    fn asked(&mut self) {
        self.conflicts = 0;
        if self.parts.maximum.is_none() {
            self.parts.questions = self.parts.questions.saturating_add(1);
        }
        self.update();
    }

    fn conflicts(&mut self, conflicts: u64) {
        self.conflicts = conflicts;
        self.update();
    }

    fn narrowed(&mut self, low: u128, high: u128) {
        self.stage = Stage::Maximum { low, high };
        if self.parts.maximum.is_none() {
            self.parts.maximum = self.moment();
        }
        if low == high {
            self.parts.log = self.moment();
        }
        self.update();
    }
}
