//! Who is told of the conflicts of a round, as conflicts behind those of the rounds before it.
use progress::progress::Progress;

/// Tells `progress` of each conflict, with `before` conflicts more.
#[derive(Drop)]
pub struct LaterConflicts<'a, P> {
    pub progress: &'a mut P,
    pub before: u64,
}

impl<'a, P: Progress> Progress for LaterConflicts<'a, P> {
    fn reached(&mut self, literals: u64) {
        self.progress.reached(literals);
    }

    fn trying(&mut self, table: u32, tables: u32) {
        self.progress.trying(table, tables);
    }

    fn asked(&mut self) {
        self.progress.asked();
    }

    fn conflicts(&mut self, conflicts: u64) {
        self.progress
            .conflicts(self.before.saturating_add(conflicts));
    }

    fn narrowed(&mut self, low: u128, high: u128) {
        self.progress.narrowed(low, high);
    }
}
