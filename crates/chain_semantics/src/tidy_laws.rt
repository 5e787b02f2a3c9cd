//! The laws about tidying: each function's contract is a law.
ghost use Rattle.chain_semantics.specs.TidyChoices.{ChoiceLaw};
ghost use Rattle.chain_semantics.specs.TidyLaws.{StepLaw, TidyLaw};

/// What one step keeps and lowers.
pub fn step()
    ensures { StepLaw }
{}

/// Steps end at one net, and what that net keeps.
pub fn tidying()
    ensures { TidyLaw }
{}

/// Which rule a step applies, and where; and what a tidy net does not have.
pub fn choices()
    ensures { ChoiceLaw }
{}
