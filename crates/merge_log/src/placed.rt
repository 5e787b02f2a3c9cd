//! Rows and tables with the places where they stand in a formula.
use net_core::items::Signal;
use net_core::mark::Mark;
use net_core::row::Row;
use net_core::table::Table;

/// Where a row stands, or the rows of a table: the place of its variable, and the id of its first clause.
#[derive(Clone, Copy)]
pub(crate) struct Place {
    pub row: u32,
    pub clause: u64,
}

/// Where a row stands, or the rows of a table, and the pins that they ask.
#[derive(Clone, Copy)]
pub(crate) struct PlacedPins<'a> {
    pub place: Place,
    pub pins: &'a [Signal],
}

/// Two rows of the same marks, each over pins of its own.
#[derive(Clone, Copy)]
pub(crate) struct RowPair<'a> {
    pub marks: &'a [Mark],
    pub own: PlacedPins<'a>,
    pub other: PlacedPins<'a>,
}

/// The rows of two tables, which are the same, over the pins of each table.
#[derive(Clone, Copy)]
pub(crate) struct RowsPair<'a> {
    pub rows: &'a [Row],
    pub own: PlacedPins<'a>,
    pub other: PlacedPins<'a>,
}

/// A table, its signal, and where its rows stand.
#[derive(Clone, Copy)]
pub(crate) struct PlacedTable<'a> {
    pub signal: Signal,
    pub table: &'a Table,
    pub place: Place,
}

/// The signal of a table, the place of the variable of its first row, and the id of the first of the clauses
/// by which its rows imply it.
#[derive(Clone, Copy)]
pub(crate) struct Implied {
    pub signal: Signal,
    pub place: Place,
}

/// Two tables of one plane and with as many rows, which were made equal by the clauses from the id `equal`
/// on.
#[derive(Clone, Copy)]
pub(crate) struct ImpliedPair {
    pub plane: bool,
    pub rows: u32,
    pub own: Implied,
    pub other: Implied,
    pub equal: u64,
}
