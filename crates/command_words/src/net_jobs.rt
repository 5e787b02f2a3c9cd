//! The jobs that certify or simplify nets, with their values.
use job_semantics::task::Task;
use proof_semantics::constraint::Constraint;

/// The names of a job on two netlists: IN, the second netlist, and STEM.
#[derive(Clone, Copy, Debug)]
pub struct Names<'a> {
    pub input: &'a [u8],
    pub second: &'a [u8],
    pub stem: &'a [u8],
}

/// A synth job, with the names IN and STEM.
#[derive(Clone, Copy, Debug)]
pub struct SynthJob<'a> {
    pub aim: Constraint,
    pub input: &'a [u8],
    pub stem: &'a [u8],
}

/// A certify or a refine job.
#[derive(Clone, Copy, Debug)]
pub struct TaskJob<'a> {
    pub task: Task,
    pub aim: Constraint,
    pub names: Names<'a>,
}
