//! A program that works on the files and the standard output of the system, as the words of its command line
//! say. What it does over any files and any sink, and what that says, is a [`Program`]; so all that is met
//! here is proved once, for each program.
ghost use Rattle.std.specs.Prelude.{◌≡◌, ℕ, List, Bool};
ghost use Rattle.std.specs.Process.{exit_status};
ghost use Rattle.outside_semantics.specs.Outside.{FilesTold, SinkTold};
ghost use Rattle.console.specs.Program.{IsRunOn, IsEnd};

use crate::arguments;
use crate::paths::SystemPaths;
use crate::real_files::RealFiles;
use crate::real_sink::RealSink;
use crate::streams::hold_streams;
use crate::terminal::Terminal;
use exit_numbers::numbers::{NO_MEMORY, WRITE_FAULT};
use file_core::files::Files;
use file_core::sink::Sink;
use file_core::word::Word;
use progress::progress::Progress;
use std::alloc::Global;
use std::fmt::Display;
use std::io;
use std::process::ExitCode;
use std::rt::{self, Env};
use std::time::Clock;

/// What a program does with the words behind its name.
pub trait Program {
    /// What a run answers. It is displayed as its line on standard error, without the program's name.
    type Answer: Display + Drop;

    /// What a run says of its words, of what files and sink told before and after it, and of its answer.
    ghost says: { List (List ℕ) → FilesTold → FilesTold → SinkTold → SinkTold → Self.Answer → Type 0 };

    /// The exit number of the process.
    ghost exit_number: { Self.Answer → ℕ };

    /// Whether the answer has a line on standard error.
    ghost is_told: { Self.Answer → Bool };

    /// Carries out what the words say over these files and this sink. Who follows it is told how far it is.
    fn carry_out<F: Files, K: Sink, P: Progress>(
        alloc: Global,
        words: &[Word],
        files: &mut F,
        say: &mut K,
        progress: &mut P,
    ) -> Self::Answer
        ensures { says
            words.now
            (F.told files.old)
            (F.told files.new)
            (K.told say.old)
            (K.told say.new)
            result };

    /// The exit number of the process.
    fn exit(answer: &Self::Answer) -> u8
        ensures { result ≡ exit_number answer.now };

    /// Whether the answer has a line on standard error.
    fn has_line(answer: &Self::Answer) -> bool
        ensures { result ≡ is_told answer.now };
}

/// Carries out a program over these files and this sink. Who follows it on standard error, which
/// `is_terminal` or not, is told how far it is.
fn carry_out_followed<G: Program, F: Files, K: Sink, R: Clock + Eprint + Env + AllocGlobal>(
    rt: &R,
    words: &[Word],
    files: &mut F,
    say: &mut K,
    is_terminal: bool,
) -> G::Answer
    ensures { G.says
        words.now
        (F.told files.old)
        (F.told files.new)
        (K.told say.old)
        (K.told say.new)
        result }
{
    let mut terminal = Terminal::of_user(rt, is_terminal);
    let answer = G::carry_out(rt.alloc(), words, files, say, &mut terminal);
    terminal.clear();
    terminal.tell_parts();
    answer
}

/// Carries out a program over the files and the standard output of the system.
fn carry_out_over_system<G: Program, R: rt::Files + Print + Eprint + Clock + Env + AllocGlobal>(
    rt: &R,
    words: &[Word],
    is_terminal: bool,
) -> G::Answer
    ensures { IsRunOn G.says words.now result }
{
    let mut files = RealFiles::new(SystemPaths::new(rt));
    let mut say = RealSink::new(io::writer(rt));
    carry_out_followed::<G, _, _, R>(rt, words, &mut files, &mut say, is_terminal)
}

/// Carries out a program over the words of the command line, and tells the line of its answer. Where there is
/// no memory for the words, nothing is touched.
fn exit_of<G: Program, R: rt::Files + Print + Eprint + Clock + Env + AllocGlobal>(
    rt: &R,
    is_terminal: bool,
) -> u8
    ensures { IsEnd G.says G.exit_number result }
{
    let Ok(words) = arguments::words(rt) else {
        let _ = eprintln!(rt; "salsa: out of memory");
        return NO_MEMORY;
    };
    let answer = carry_out_over_system::<G, R>(rt, &words, is_terminal);
    if G::has_line(&answer) {
        let _ = eprintln!(rt; "salsa: {answer}");
    }
    G::exit(&answer)
}

/// Carries out a program over the words of the command line, the files and the standard output of the system,
/// and tells the line of its answer on standard error, which `is_terminal` or not. It is all that a program
/// does. Before that, the numbers of the standard streams are held; where they cannot be, nothing is touched.
pub fn run<G: Program, R: rt::Files + Print + Eprint + Clock + Env + AllocGlobal>(
    rt: &R,
    is_terminal: bool,
) -> ExitCode
    ensures { IsEnd G.says G.exit_number (exit_status result) }
{
    match hold_streams(&SystemPaths::new(rt)) {
        Ok(held) => {
            let exit = exit_of::<G, R>(rt, is_terminal);
            drop(held);
            ExitCode::from(exit)
        }
        Err(_) => {
            let _ = eprintln!(rt; "salsa: write fault");
            ExitCode::from(WRITE_FAULT)
        }
    }
}
