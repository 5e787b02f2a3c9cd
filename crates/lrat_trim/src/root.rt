//! Where a log first adds the empty clause.
ghost use Rattle.std.specs.Prelude.{◌≡◌, position};
ghost use Rattle.lrat_trim.specs.Backwards.{adds_empty_clause};

use proof_parts::log::Item;

fn adds_empty_clause(item: &Item) -> bool
    ensures { result ≡ adds_empty_clause item.now }
{
    match item {
        Item::Add(s) => s.lits().is_empty(),
        Item::Remove(_) => false,
    }
}

/// The place of the root, from 0.
pub(crate) fn root_place(items: &[Item]) -> Option<usize>
    ensures { result ≡ position adds_empty_clause items.now }
{
    items.iter().position(|item| adds_empty_clause(item))
}
