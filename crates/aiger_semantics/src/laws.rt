//! The laws about circuits: each function's contract is a law.
ghost use Rattle.aiger_semantics.specs.Laws.{NetCircuitLaw, NumberedLaw, ReadingLaw, WrittenLaw};

/// The circuit of a net has the net's outputs.
pub fn net_circuits()
    ensures { NetCircuitLaw }
{}

/// The variables of the circuit of a net, and the variables of which its literals are.
pub fn numbered()
    ensures { NumberedLaw }
{}

/// What is read is a small sound net, with the outputs of the circuit of the text's lines.
pub fn readings()
    ensures { ReadingLaw }
{}

/// The text of the circuit of a net is read back as that circuit.
pub fn written()
    ensures { WrittenLaw }
{}
