//! What is read without being a signal.
ghost use Rattle.std.specs.Prelude.{◌≡◌, ◌++◌, not, nat_lt};
ghost use Rattle.std.specs.List.{find, flat_map};

use net_parts::items::{Signal, SignalList, TableList};

/// The first of these signals that is not below `count`.
fn first_past(signals: &[Signal], count: u32) -> Option<Signal>
    ensures { result ≡ find (λ s. not (nat_lt s count)) signals.now }
{
    signals.iter().copied().find(|s| *s >= count)
}

/// The first pin, in table and pin order, or else the first output, that is not below `count`.
pub(crate) fn first_undriven(count: u32, tables: &TableList, outputs: &SignalList) -> Option<Signal>
    ensures { result ≡ find (λ s. not (nat_lt s count)) (flat_map (λ t. t.pins) tables.now ++ outputs.now) }
{
    for table in tables.as_slice() {
        let undriven = first_past(table.pins().as_slice(), count);
        if undriven.is_some() {
            return undriven;
        }
    }
    first_past(outputs.as_slice(), count)
}
