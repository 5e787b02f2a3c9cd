//! The words of the command line, and the job that they name.
ghost use Rattle.std.specs.Prelude.{◌≡◌, option_map, IfSome};
ghost use Rattle.semantics.specs.Texts.{Bytes};
ghost use Rattle.job_semantics.specs.Job.{Job, job_of, constraint_of, synth_of, task_of, check_of, demo_of};
ghost use Rattle.job_semantics.specs.Job.{conversion_of, trim_of, flat, aag, blif};
ghost use Rattle.command_words.specs.Words.{job_meaning, check_with, IsInRanges, HasRanges};

use crate::file_words::{are_file_words, are_task_names, are_trim_words, is_output_word};
use crate::metric_words::metric;
use crate::net_jobs::{Names, SynthJob, TaskJob};
use decimal_words::decimal::number_from_to;
use file_core::word::Word;
use job_semantics::claim::Claim;
use job_semantics::growth::Growth;
use job_semantics::task::Task;
use proof_semantics::constraint::Constraint;
use semantics::limits::LARGEST_ERROR;

/// A job with its values. `input`, `stem` and `output` are names of files.
#[derive(Clone, Copy, Debug)]
pub enum Command<'a> {
    Synth(SynthJob<'a>),
    Against(TaskJob<'a>),
    /// A check where the claim refuses growth, and a confirmation where it allows growth.
    Check {
        claim: Claim,
        input: &'a [u8],
        stem: &'a [u8],
    },
    Demo {
        width: u32,
        bound: u128,
        conflicts: u64,
    },
    Flat {
        input: &'a [u8],
        output: &'a [u8],
    },
    Aag {
        input: &'a [u8],
        output: &'a [u8],
    },
    Blif {
        input: &'a [u8],
        output: &'a [u8],
    },
    Trim {
        claim: Claim,
        input: &'a [u8],
        stem: &'a [u8],
        output: &'a [u8],
    },
}

/// What METRIC, BOUND and CONFLICTS ask for.
#[tactic(auto, using(crate::proofs::JobWords::number_within))]
fn constraint(metric_word: &[u8], bound_word: &[u8], conflicts_word: &[u8]) -> Option<Constraint>
    ensures value { result ≡ constraint_of metric_word.now bound_word.now conflicts_word.now }
    ensures ranges { IfSome result IsInRanges }
{
    let metric = metric(metric_word)?;
    let bound = number_from_to(bound_word, 0, LARGEST_ERROR)?;
    let conflicts = number_from_to(conflicts_word, 1, 100_000)?;
    Some(Constraint {
        metric,
        bound,
        limit: conflicts as u64,
    })
}

fn synth(words: &[Word]) -> Option<Command<'_>>
    ensures job { option_map job_meaning result ≡ synth_of words.now }
    ensures ranges { IfSome result HasRanges }
{
    let [metric, bound, conflicts, input, stem] = words else {
        return None;
    };
    let aim = constraint(metric.bytes(), bound.bytes(), conflicts.bytes())?;
    let input = input.bytes();
    let stem = stem.bytes();
    if !are_file_words(input, stem) {
        return None;
    }
    Some(Command::Synth(SynthJob { aim, input, stem }))
}

/// The job of a task and a second netlist. To refine IN itself is to simplify it.
fn task(task: Task, words: &[Word]) -> Option<Command<'_>>
    ensures job { option_map job_meaning result ≡ task_of task words.now }
    ensures ranges { IfSome result HasRanges }
{
    let [metric, bound, conflicts, input, second, stem] = words else {
        return None;
    };
    let aim = constraint(metric.bytes(), bound.bytes(), conflicts.bytes())?;
    let names = Names {
        input: input.bytes(),
        second: second.bytes(),
        stem: stem.bytes(),
    };
    if !are_task_names(&names) {
        return None;
    }
    match task {
        Task::Refine if names.input == names.second => Some(Command::Synth(SynthJob {
            aim,
            input: names.input,
            stem: names.stem,
        })),
        _ => Some(Command::Against(TaskJob { task, aim, names })),
    }
}

/// METRIC, BOUND, IN and STEM of a check, where growth is refused, or of a confirmation.
#[tactic(auto, using(crate::proofs::JobWords::number_within))]
fn check(growth: Growth, words: &[Word]) -> Option<Command<'_>>
    ensures job { option_map job_meaning result ≡ check_of (check_with growth) words.now }
    ensures ranges { IfSome result HasRanges }
{
    let [metric_word, bound_word, input, stem] = words else {
        return None;
    };
    let metric = metric(metric_word.bytes())?;
    let bound = number_from_to(bound_word.bytes(), 0, LARGEST_ERROR)?;
    let input = input.bytes();
    let stem = stem.bytes();
    if !are_file_words(input, stem) {
        return None;
    }
    let claim = Claim {
        metric,
        bound,
        growth,
    };
    Some(Command::Check { claim, input, stem })
}

#[tactic(auto, using(crate::proofs::JobWords::number_within))]
fn demo(words: &[Word]) -> Option<Command<'_>>
    ensures job { option_map job_meaning result ≡ demo_of words.now }
    ensures ranges { IfSome result HasRanges }
{
    let [width_word, bound_word, conflicts_word] = words else {
        return None;
    };
    let width = number_from_to(width_word.bytes(), 1, 32)?;
    let bound = number_from_to(bound_word.bytes(), 0, LARGEST_ERROR)?;
    let conflicts = number_from_to(conflicts_word.bytes(), 1, 100_000)?;
    Some(Command::Demo {
        width: width as u32,
        bound,
        conflicts: conflicts as u64,
    })
}

/// IN and OUT of a conversion.
fn conversion(words: &[Word]) -> Option<(&[u8], &[u8])>
    ensures { (job : Bytes → Bytes → Job)
        → option_map (λ pair. job pair.0.now pair.1.now) result ≡ conversion_of job words.now }
{
    let [input, output] = words else {
        return None;
    };
    let input = input.bytes();
    let output = output.bytes();
    if input.is_empty() || !is_output_word(input, output) {
        return None;
    }
    Some((input, output))
}

fn flat(words: &[Word]) -> Option<Command<'_>>
    ensures job { option_map job_meaning result ≡ conversion_of flat words.now }
    ensures ranges { IfSome result HasRanges }
{
    let (input, output) = conversion(words)?;
    Some(Command::Flat { input, output })
}

fn aag(words: &[Word]) -> Option<Command<'_>>
    ensures job { option_map job_meaning result ≡ conversion_of aag words.now }
    ensures ranges { IfSome result HasRanges }
{
    let (input, output) = conversion(words)?;
    Some(Command::Aag { input, output })
}

fn blif(words: &[Word]) -> Option<Command<'_>>
    ensures job { option_map job_meaning result ≡ conversion_of blif words.now }
    ensures ranges { IfSome result HasRanges }
{
    let (input, output) = conversion(words)?;
    Some(Command::Blif { input, output })
}

#[tactic(auto, using(crate::proofs::JobWords::number_within))]
fn trim(words: &[Word]) -> Option<Command<'_>>
    ensures job { option_map job_meaning result ≡ trim_of words.now }
    ensures ranges { IfSome result HasRanges }
{
    let [metric_word, bound_word, input, stem, output] = words else {
        return None;
    };
    let metric = metric(metric_word.bytes())?;
    let bound = number_from_to(bound_word.bytes(), 0, LARGEST_ERROR)?;
    let input = input.bytes();
    let stem = stem.bytes();
    let output = output.bytes();
    if !are_trim_words(input, stem, output) {
        return None;
    }
    let claim = Claim {
        metric,
        bound,
        growth: Growth::Refused,
    };
    Some(Command::Trim {
        claim,
        input,
        stem,
        output,
    })
}

/// The job that the words name, if they name one. The call takes no memory.
#[tactic(auto, unfolding(job_semantics::specs::Job::job_of))]
pub fn command_named(words: &[Word]) -> Option<Command<'_>>
    ensures job { option_map job_meaning result ≡ job_of words.now }
    ensures ranges { IfSome result HasRanges }
{
    let (command, rest) = words.split_first()?;
    let command = command.bytes();
    if command == b"synth".as_slice() {
        synth(rest)
    } else if command == b"certify".as_slice() {
        task(Task::Certify, rest)
    } else if command == b"refine".as_slice() {
        task(Task::Refine, rest)
    } else if command == b"check".as_slice() {
        check(Growth::Refused, rest)
    } else if command == b"confirm".as_slice() {
        check(Growth::Allowed, rest)
    } else if command == b"demo".as_slice() {
        demo(rest)
    } else if command == b"flat".as_slice() {
        flat(rest)
    } else if command == b"aag".as_slice() {
        aag(rest)
    } else if command == b"blif".as_slice() {
        blif(rest)
    } else if command == b"trim".as_slice() {
        trim(rest)
    } else {
        None
    }
}
