//! The law about the net of the demonstration: the function's contract is the law.
ghost use Rattle.job_semantics.specs.DemoLaws.{DemoLaw};

/// What the net of the demonstration is, and that it adds.
pub fn adds()
    ensures { DemoLaw }
{}
