//! The limits of a netlist that is read. Source: this tool's own limits.
ghost use Rattle.std.specs.Prelude.{◌≡◌, ℕ, List, length, sum_by, nat_le};
ghost use Rattle.std.specs.List.{list_all};
ghost use Rattle.semantics.specs.Refusals.{first_limit};

use net_parts::items::{NameList, SignalList, TableList};
use net_parts::table::Table;
use semantics::limits::{
    MOST_INPUTS, MOST_OUTPUTS, MOST_PINS, MOST_ROWS, MOST_TABLE_PINS, MOST_TABLES,
};
pub use semantics::which::Which;

/// Whether no table has more pins than one table may.
fn are_narrow(tables: &[Table]) -> bool
    ensures { result ≡ list_all (λ t. nat_le (length t.pins) MOST_TABLE_PINS) tables.now }
{
    tables
        .iter()
        .all(|table| table.pins().len() <= MOST_TABLE_PINS)
}

/// Whether the tables have at most `MOST_PINS` pins in all.
fn have_few_pins(tables: &[Table]) -> bool
    ensures { result ≡ nat_le (sum_by (λ t. length t.pins) tables.now) MOST_PINS }
{
    let mut left = MOST_PINS;
    for table in tables {
        let Some(rest) = left.checked_sub(table.pins().len()) else {
            return false;
        };
        left = rest;
    }
    true
}

/// Whether the tables have at most `MOST_ROWS` rows in all.
fn have_few_rows(tables: &[Table]) -> bool
    ensures { result ≡ nat_le (sum_by (λ t. length t.rows) tables.now) MOST_ROWS }
{
    let mut left = MOST_ROWS;
    for table in tables {
        let Some(rest) = left.checked_sub(table.rows().len()) else {
            return false;
        };
        left = rest;
    }
    true
}

/// The first limit that these parts pass. The count takes no memory, and stops where a limit is passed.
pub fn first_limit(inputs: &NameList, tables: &TableList, outputs: &SignalList) -> Option<Which>
    ensures { (model : List ℕ)
        → result ≡ first_limit (record
        { model = model; inputs = inputs.now; tables = tables.now; outputs = outputs.now }) }
{
    if inputs.len() > MOST_INPUTS {
        return Some(Which::Inputs);
    }
    if outputs.len() > MOST_OUTPUTS {
        return Some(Which::Outputs);
    }
    if tables.len() > MOST_TABLES {
        return Some(Which::Tables);
    }
    let tables = tables.as_slice();
    if !are_narrow(tables) {
        Some(Which::Pins)
    } else if !have_few_pins(tables) {
        Some(Which::AllPins)
    } else if !have_few_rows(tables) {
        Some(Which::Rows)
    } else {
        None
    }
}
