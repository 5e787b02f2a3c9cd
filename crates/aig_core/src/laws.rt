//! The laws about graphs: each function's contract is a law.
ghost use Rattle.aig_core.specs.Laws.{ValueLaw, GrowthLaw};

/// Each node has one value at each input vector.
pub fn values()
    ensures { ValueLaw }
{}

/// What stays while a graph grows.
pub fn growth()
    ensures { GrowthLaw }
{}
