//! The items of a log. Source: LRAT.

/// A step adds a clause, and a removal ends the holding of clauses. Definitions and code share this one type.
#[derive(Drop)]
pub enum Item<S, I> {
    Add(S),
    Remove(I),
}
