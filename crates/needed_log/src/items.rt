//! The hints of items.
ghost use Rattle.std.specs.Prelude.{◌≡◌};
ghost use Rattle.needed_log.specs.Needed.{hints_of};

use proof_parts::log::Item;

/// The hints of an item; a removal has none.
pub(crate) fn hints_of(item: &Item) -> &[u64]
    ensures { result.now ≡ hints_of item.now }
{
    match item {
        Item::Add(s) => s.hints().as_slice(),
        Item::Remove(_) => &[],
    }
}
