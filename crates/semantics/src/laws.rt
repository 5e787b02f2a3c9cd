//! The laws about the definitions: each function's contract is a law.
ghost use Rattle.semantics.specs.Laws.{ValueLaw, EmbeddingLaw, CopyLaw, ReplacedLaw, DependenceLaw};
ghost use Rattle.semantics.specs.Laws.{AcyclicLaw, GroundedLaw, OrderLaw, EvaluationLaw, RenamedLaw};
ghost use Rattle.semantics.specs.Laws.{WithoutLaw, RefusalLaw, VectorLaw, SizeLaw, SignedLaw, NumeralLaw};
ghost use Rattle.semantics.specs.Laws.{WordsLaw};

/// Acyclic tables give each signal one value at each input vector.
pub fn values()
    ensures { ValueLaw }
{}

/// Tables that stand in a larger list keep their values there.
pub fn embedding()
    ensures { EmbeddingLaw }
{}

/// Tables copied behind others.
pub fn copies()
    ensures { CopyLaw }
{}

/// What a replaced table changes.
pub fn replacement()
    ensures { ReplacedLaw }
{}

/// What depends on a table.
pub fn dependence()
    ensures { DependenceLaw }
{}

/// Which changes make no cycle.
pub fn acyclic_changes()
    ensures { AcyclicLaw }
{}

/// Where each table is grounded in some number of steps, it is grounded in as many steps as there are tables.
pub fn grounded()
    ensures { GroundedLaw }
{}

/// Orders of tables.
pub fn orders()
    ensures { OrderLaw }
{}

/// Evaluation in an order.
pub fn evaluation()
    ensures { EvaluationLaw }
{}

/// Pins renamed.
pub fn renamed_pins()
    ensures { RenamedLaw }
{}

/// A table left out.
pub fn without_table()
    ensures { WithoutLaw }
{}

/// What is refused, and which refusal is told.
pub fn refusals()
    ensures { RefusalLaw }
{}

/// Every input vector stands once in counting order.
pub fn vectors()
    ensures { VectorLaw }
{}

/// How large numbers and errors of words are.
pub fn sizes()
    ensures { SizeLaw }
{}

/// Outputs that are cut into words, and the error of the word that errs most.
pub fn words()
    ensures { WordsLaw }
{}

/// Words in two's complement, and the signed error in natural numbers.
pub fn signed_words()
    ensures { SignedLaw }
{}

/// Decimal words and the numbers that they read as.
pub fn numerals()
    ensures { NumeralLaw }
{}
