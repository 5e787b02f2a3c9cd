//! The laws about jobs: each function's contract is a law.
ghost use Rattle.job_semantics.specs.Laws.{BundleFilesLaw, MetricWordLaw};

/// What is held after the files of a bundle were written.
pub fn bundle_files()
    ensures { BundleFilesLaw }
{}

/// The words that name metrics.
pub fn metric_words()
    ensures { MetricWordLaw }
{}
