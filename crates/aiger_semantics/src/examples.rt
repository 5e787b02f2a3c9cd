//! Worked examples of circuits, computed by the checker: each function's contract is its examples.
ghost use Rattle.aiger_semantics.specs.Examples.{LiteralExamples, CircuitExamples, TextExamples};
ghost use Rattle.aiger_semantics.specs.ReadExamples.{TextLineExamples, ReadExamples, LineRefusals};
ghost use Rattle.aiger_semantics.specs.ReadExamples.{CircuitRefusals};

/// Values of literals.
pub fn literals()
    ensures { LiteralExamples }
{}

/// The circuits of nets.
pub fn circuits()
    ensures { CircuitExamples }
{}

/// The texts of circuits.
pub fn texts()
    ensures { TextExamples }
{}

/// Texts as lines.
pub fn text_lines()
    ensures { TextLineExamples }
{}

/// Texts that are read.
pub fn readings()
    ensures { ReadExamples }
{}

/// Texts of which a line is refused.
pub fn line_refusals()
    ensures { LineRefusals }
{}

/// Texts whose circuit or net is refused.
pub fn circuit_refusals()
    ensures { CircuitRefusals }
{}
