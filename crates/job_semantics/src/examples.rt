//! Worked examples of the definitions, computed by the checker: each function's contract is its examples.
ghost use Rattle.job_semantics.specs.Examples.{ReportExamples, MetricExamples, JobExamples};

/// The texts of reports and vectors.
pub fn reports()
    ensures { ReportExamples }
{}

/// Words that name metrics and words that name none.
pub fn metrics()
    ensures { MetricExamples }
{}

/// Words that are jobs and words that are none.
pub fn jobs()
    ensures { JobExamples }
{}
