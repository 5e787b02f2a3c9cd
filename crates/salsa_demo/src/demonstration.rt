//! The program of the job `demo` alone, and what each of its answers says.
ghost use Rattle.std.specs.Prelude.{◌≡◌};
ghost use Rattle.salsa_demo.specs.Demonstration.{program_says, answer_exit, has_line};

use command_words::usage::usage_line;
use command_words::words::{Command, command_named};
use console::program::Program;
use exit_numbers::numbers::USAGE;
use few_inputs::search::VectorSearch;
use file_core::files::Files;
use file_core::sink::Sink;
use file_core::word::Word;
use progress::progress::Progress;
use std::alloc::Global;
use std::fmt;
use synth_jobs::demonstration::{demo_aim, demonstrate};
use synth_jobs::work::Work;

/// The most bits of a word of the adder: the two words together then have as many inputs as a
/// [`VectorSearch`] takes.
pub const MOST_WIDTH: u32 = 4;

/// What a demonstration answers.
#[derive(Drop)]
pub enum Answer {
    /// The words are no demo job.
    Usage,
    /// The words of the adder have more than [`MOST_WIDTH`] bits.
    Wide,
    /// What the work on the generated adder came to.
    Worked(Work),
}

/// The line on standard error, without the program's name.
impl fmt::Display for Answer {
    ghost use Rattle.std.specs.Prelude.{Some};
    ghost use Rattle.salsa_demo.specs.Demonstration.{answer_line};

    ghost output = { λ s. Some (answer_line s) };

    fn fmt<W: fmt::Write>(&self, f: &mut fmt::Formatter<W>) -> fmt::Result {
        match self {
            Answer::Usage => f.write_str(usage_line()),
            Answer::Wide => f.write_str(
                "this program takes words of at most 4 bits; the whole program takes up to 32",
            ),
            Answer::Worked(Work::Done(_)) => f.write_str("done"),
            Answer::Worked(Work::NoMemory) => f.write_str("out of memory"),
            Answer::Worked(Work::Budget { .. }) => f.write_str("conflicts spent"),
            Answer::Worked(Work::WriteFault) => f.write_str("write fault"),
        }
    }
}

/// The program of a demonstration.
pub struct Demonstration;

impl Program for Demonstration {
    type Answer = Answer;

    ghost says = { program_says };

    ghost exit_number = { answer_exit };

    ghost is_told = { has_line };

    #[tactic(auto, using(crate::proofs::Widths::few_inputs))]
    fn carry_out<F: Files, K: Sink, P: Progress>(
        alloc: Global,
        words: &[Word],
        files: &mut F,
        say: &mut K,
        progress: &mut P,
    ) -> Answer {
        match command_named(words) {
            Some(
                Command::Demo {
                    width,
                    bound,
                    conflicts,
                },
            ) => {
                if width > MOST_WIDTH {
                    return Answer::Wide;
                }
                let aim = demo_aim(bound, conflicts);
                Answer::Worked(demonstrate::<VectorSearch, F, K, P>(
                    alloc, width, aim, files, say, progress,
                ))
            }
            _ => Answer::Usage,
        }
    }

    fn exit(answer: &Answer) -> u8 {
        match answer {
            Answer::Usage | Answer::Wide => USAGE,
            Answer::Worked(work) => work.exit(),
        }
    }

    fn has_line(answer: &Answer) -> bool {
        !matches!(answer, Answer::Worked(Work::Done(_)))
    }
}
