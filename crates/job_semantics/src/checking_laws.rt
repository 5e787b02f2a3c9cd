//! The laws about the words of jobs and about checks of told files: each function's contract is a law.
ghost use Rattle.job_semantics.specs.CheckingLaws.{FileWordsLaw, CheckedFilesLaw, JoinedRunsLaw};
ghost use Rattle.job_semantics.specs.CheckingLaws.{JoinedTaskLaw};

/// What the words IN and STEM of a job are.
pub fn file_words()
    ensures { FileWordsLaw }
{}

/// Which files a check verifies.
pub fn checked_files()
    ensures { CheckedFilesLaw }
{}

/// What a check says of the files that a synthesis left.
pub fn joined_runs()
    ensures { JoinedRunsLaw }
{}

/// What a check and a confirmation say of the files that a certify or a refine job left.
pub fn joined_tasks()
    ensures { JoinedTaskLaw }
{}
