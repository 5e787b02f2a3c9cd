//! What a search tells of how far it is. No call returns anything, so no result depends on who is told, or on
//! what is done with it.

/// The calls by which a search along the chain of simplifications, a search for the greatest error, and the
/// solver tell how far they are.
pub trait Progress {
    /// A member of the chain was reached, which has `literals` literals. The first member that is told is the
    /// tidied net.
    fn reached(&mut self, literals: u64);

    /// The moves of the member's table `table`, one of `tables` tables, are tried now. The moves are ordered
    /// by their tables.
    fn trying(&mut self, table: u32, tables: u32);

    /// A question goes to the solver.
    fn asked(&mut self);

    /// The solver has had `conflicts` conflicts since it was asked.
    fn conflicts(&mut self, conflicts: u64);

    /// The greatest error is at least `low` and at most `high`.
    fn narrowed(&mut self, low: u128, high: u128);
}

/// Ignores what it is told.
#[derive(Drop)]
pub struct Silent;

impl Progress for Silent {
    fn reached(&mut self, _literals: u64) {}

    fn trying(&mut self, _table: u32, _tables: u32) {}

    fn asked(&mut self) {}

    fn conflicts(&mut self, _conflicts: u64) {}

    fn narrowed(&mut self, _low: u128, _high: u128) {}
}
