//! The law about what a text means, as a contract.
ghost use Rattle.solve_cnf.specs.Laws.{WrittenLaw};

/// A formula that is written is read back.
pub fn written()
    ensures { WrittenLaw }
{}
