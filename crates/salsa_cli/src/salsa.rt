//! The program `salsa`, and what each of its answers says.
ghost use Rattle.std.specs.Prelude.{◌≡◌};
ghost use Rattle.job_answers.specs.Exit.{exit_number};
ghost use Rattle.salsa_cli.specs.Salsa.{program_says, has_line};

use console::program::Program;
use file_core::files::Files;
use file_core::sink::Sink;
use file_core::word::Word;
use job_answers::status::Status;
use jobs::run::run_followed;
use progress::progress::Progress;
use std::alloc::Global;

/// The program of all jobs.
pub struct Salsa;

impl Program for Salsa {
    type Answer = Status;

    ghost says = { program_says };

    ghost exit_number = { exit_number };

    ghost is_told = { has_line };

    fn carry_out<F: Files, K: Sink, P: Progress>(
        alloc: Global,
        words: &[Word],
        files: &mut F,
        say: &mut K,
        progress: &mut P,
    ) -> Status {
        run_followed(alloc, words, files, say, progress).status
    }

    fn exit(answer: &Status) -> u8 {
        answer.exit()
    }

    fn has_line(answer: &Status) -> bool {
        !matches!(answer, Status::Done)
    }
}
