//! The laws about trimmed logs: each function's contract is a law.
ghost use Rattle.trim_semantics.specs.TrimLaws.{TrimmedLaw, KeptLaw};

/// A log that refutes has exactly one trimmed log, which refutes as well.
pub fn trimmed_logs()
    ensures { TrimmedLaw }
{}

/// Which additions are kept.
pub fn kept_additions()
    ensures { KeptLaw }
{}
