//! Worked examples of tidying, computed by the checker: each function's contract is its examples.
ghost use Rattle.chain_semantics.specs.TidyExamples.{RuleExamples, OrderExamples, BypassExamples};

/// Nets, and what they are tidied to.
pub fn rules()
    ensures { RuleExamples }
{}

/// Nets at which the order of the rules matters, or how a rule is read.
pub fn order()
    ensures { OrderExamples }
{}

/// Nets with tables that are read past.
pub fn bypasses()
    ensures { BypassExamples }
{}
