//! Rows of bits that tell where the error exceeds the bound: with the net as it is, and with a table turned
//! over.
ghost use Rattle.std.specs.Prelude.{◌≡◌, ◌<◌, ◌≤◌, ℕ, Bool, List, length, IfOk};
ghost use Rattle.semantics.specs.Net.{NetValue, signal_count, table_count};
ghost use Rattle.chain_semantics.specs.Care.{IsCaredFor, Exceeds};
ghost use Rattle.net_core.specs.Built.{IsBuilt};
ghost use Rattle.lane_nets.specs.Blocks.{row_at, IsRowWhere, AreBlocksOf};
ghost use Rattle.lane_nets.specs.Lanes.{AreOutputWordsOf};
ghost use Rattle.care_masks.specs.Filled.{FitsOutputs};
ghost use Rattle.care_masks.specs.Flips.{AreLater};

use crate::differences::used_word;
use crate::flips::{TurnedTable, flip_words, list_later};
use crate::judged_nets::over_bound;
use lane_nets::word_list::WordList;
use net_core::items::Items;
use net_core::net::Net;
use semantics::limits::MOST_OUTPUTS;
use semantics::metric::Metric;
use std::alloc::{AllocError, Global};

/// The words of the exact outputs in blocks of 64 patterns, the number of patterns, and the greatest error
/// that other outputs may have.
#[derive(Drop)]
pub(crate) struct Limit {
    pub(crate) outputs: Items<WordList>,
    pub(crate) count: u64,
    pub(crate) metric: Metric,
    pub(crate) level: u128,
}

/// Sets `row` to the patterns at which the net itself exceeds the level.
fn set_exceeding_row(net: &Net, blocks: &[WordList], limit: &Limit, row: &mut [u64])
    requires few_outputs { length net.now.outputs ≤ MOST_OUTPUTS }
    requires limit { FitsOutputs net.now limit.now.count limit.now.outputs }
    requires same { length blocks.now ≡ length limit.now.outputs }
    requires blocks { (k : ℕ) → k < length blocks.now → length (row_at blocks.now k) ≡ signal_count net.now }
    requires row { length row.old ≡ length blocks.now }
    ensures { (exact : NetValue) (vectors : List (List Bool))
        → length vectors ≡ limit.now.count → AreOutputWordsOf exact vectors limit.now.outputs
        → AreBlocksOf net.now vectors blocks.now
        → IsRowWhere vectors (Exceeds limit.now.metric exact limit.now.level net.now) row.new }
{
    net.see_sound();
    for k in 0..blocks.len() {
        let words = blocks[k].as_slice();
        let exact = limit.outputs.get(k).as_slice();
        let used = used_word(limit.count, k);
        row[k] = over_bound(net, limit.metric, limit.level, words, exact, used);
    }
}

/// The row of the patterns at which the net itself exceeds the level.
pub(crate) fn exceeding_row(
    alloc: Global,
    net: &Net,
    blocks: &[WordList],
    limit: &Limit,
) -> Result<WordList, AllocError>
    requires few_outputs { length net.now.outputs ≤ MOST_OUTPUTS }
    requires limit { FitsOutputs net.now limit.now.count limit.now.outputs }
    requires same { length blocks.now ≡ length limit.now.outputs }
    requires blocks { (k : ℕ) → k < length blocks.now → length (row_at blocks.now k) ≡ signal_count net.now }
    ensures { IfOk result (λ row. (exact : NetValue) (vectors : List (List Bool))
        → length vectors ≡ limit.now.count → AreOutputWordsOf exact vectors limit.now.outputs
        → AreBlocksOf net.now vectors blocks.now
        → IsRowWhere vectors (Exceeds limit.now.metric exact limit.now.level net.now) row) }
{
    let mut row = vec![in alloc; 0; blocks.len()]?;
    set_exceeding_row(net, blocks, limit, &mut row);
    Ok(WordList::of(row))
}

/// Sets `row` to the patterns that are cared for at a table. The values of each block with the table turned
/// over are computed in `words`.
fn set_care_row(
    net: &Net,
    turned: &TurnedTable,
    blocks: &[WordList],
    limit: &Limit,
    words: &mut [u64],
    row: &mut [u64],
)
    requires table { turned.now.table < table_count net.now }
    requires later { AreLater net.now turned.now.table turned.now.later.now }
    requires few_outputs { length net.now.outputs ≤ MOST_OUTPUTS }
    requires limit { FitsOutputs net.now limit.now.count limit.now.outputs }
    requires same { length blocks.now ≡ length limit.now.outputs }
    requires blocks { (k : ℕ) → k < length blocks.now → length (row_at blocks.now k) ≡ signal_count net.now }
    requires words { length words.old ≡ signal_count net.now }
    requires row { length row.old ≡ length blocks.now }
    ensures { (exact : NetValue) (vectors : List (List Bool))
        → length vectors ≡ limit.now.count → AreOutputWordsOf exact vectors limit.now.outputs
        → AreBlocksOf net.now vectors blocks.now
        → IsRowWhere vectors (IsCaredFor limit.now.metric exact limit.now.level net.now turned.now.table)
        row.new }
{
    net.see_sound();
    for k in 0..blocks.len() {
        words.copy_from_slice(blocks[k].as_slice());
        flip_words(net, turned, words);
        let exact = limit.outputs.get(k).as_slice();
        let used = used_word(limit.count, k);
        row[k] = over_bound(net, limit.metric, limit.level, words, exact, used);
    }
}

/// For each table the row of the patterns that are cared for. Only the rows take memory.
pub(crate) fn care_rows(
    alloc: Global,
    net: &Net,
    blocks: &[WordList],
    limit: &Limit,
) -> Result<Items<WordList>, AllocError>
    requires few_outputs { length net.now.outputs ≤ MOST_OUTPUTS }
    requires limit { FitsOutputs net.now limit.now.count limit.now.outputs }
    requires same { length blocks.now ≡ length limit.now.outputs }
    requires blocks { (k : ℕ) → k < length blocks.now → length (row_at blocks.now k) ≡ signal_count net.now }
    ensures count { IfOk result (λ rows. length rows ≡ table_count net.now) }
    ensures rows { IfOk result (λ rows. (exact : NetValue) (vectors : List (List Bool))
        → length vectors ≡ limit.now.count → AreOutputWordsOf exact vectors limit.now.outputs
        → AreBlocksOf net.now vectors blocks.now
        → (t : ℕ) → t < table_count net.now
        → IsRowWhere vectors (IsCaredFor limit.now.metric exact limit.now.level net.now t) (row_at rows t)) }
    ensures built { IsBuilt net.now }
{
    let mut dependents = vec![in alloc; false; net.signals() as usize]?;
    let marks = dependents.as_mut_slice();
    let mut values = vec![in alloc; 0; net.signals() as usize]?;
    let words = values.as_mut_slice();
    let order = net.order();
    let mut tables = vec![in alloc; 0; order.len()]?;
    let later = tables.as_mut_slice();
    let mut rows = Items::new(alloc);
    for t in 0..net.tables() {
        let mut row = vec![in alloc; 0; blocks.len()]?;
        net.mark_dependents(t, marks);
        let count = list_later(net, order, t, marks, later);
        let turned = TurnedTable {
            table: t,
            later: &later[..count],
        };
        set_care_row(net, &turned, blocks, limit, words, &mut row);
        rows.push(WordList::of(row))?;
    }
    Ok(rows)
}
