//! The patterns at which a move changes its table's value, and those at which this breaks the bound.
ghost use Rattle.std.specs.Prelude.{◌≡◌, ◌↔◌, ◌⊎◌, ◌+◌, ◌*◌, ◌<◌, ◌≤◌, ◌^◌, ℕ, Bool, List, length, nat_lt};
ghost use Rattle.std.specs.Prelude.{IsTrue, if◌then◌else◌, Contains};
ghost use Rattle.semantics.specs.Net.{NetValue, signal_count};
ghost use Rattle.semantics.specs.declared.metric.Metric.{Metric};
ghost use Rattle.chain_semantics.specs.Moves.{moves_of, table_of};
ghost use Rattle.chain_semantics.specs.Care.{IsCaredFor, Exceeds, Changes};
ghost use Rattle.lane_bits.specs.Rows.{word_count};
ghost use Rattle.net_core.specs.Built.{IsBuilt};
ghost use Rattle.lane_nets.specs.Words.{word_bit, HasValues};
ghost use Rattle.lane_nets.specs.Blocks.{row_at, IsRowWhere, AreBlocksOf};
ghost use Rattle.care_masks.specs.Masks.{FindsFirstBroken};

use crate::moved_values::moved_word;
use chain_semantics::moves::Move;
use lane_bits::kernels::first_set;
use lane_nets::word_list::WordList;
use net_core::net::Net;
use net_moves::apply::table_of;

/// The lanes where the move changes its table's value, in one block.
pub(crate) fn difference_word(net: &Net, a_move: Move, words: &[u64]) -> u64
    requires offered { Contains (moves_of net.now) a_move }
    requires room { length words.now ≡ signal_count net.now }
    ensures bits { (b : ℕ) (x : List Bool) → b < 64 → HasValues net.now words.now b x
        → IsTrue (word_bit result b) ↔ Changes net.now a_move x }
    ensures built { IsBuilt net.now }
{
    let value = words[(net.inputs() + table_of(a_move)) as usize];
    moved_word(net, a_move, words) ^ value
}

/// The bits of block k that belong to patterns.
pub(crate) fn used_word(count: u64, k: usize) -> u64
    requires { k < word_count count }
    ensures { (b : ℕ) → b < 64 → word_bit result b ≡ nat_lt (64 * k + b) count }
{
    let left = count - 64 * k as u64;
    if left < 64 { (1 << left) - 1 } else { u64::MAX }
}

/// Sets `row` to the patterns at which the move changes its table's value.
pub(crate) fn set_differences(
    net: &Net,
    a_move: Move,
    count: u64,
    blocks: &[WordList],
    row: &mut [u64],
)
    requires offered { Contains (moves_of net.now) a_move }
    requires blocks { (k : ℕ) → k < length blocks.now → length (row_at blocks.now k) ≡ signal_count net.now }
    requires count { length blocks.now ≡ word_count count }
    requires room { length row.old ≡ word_count count }
    ensures { (vectors : List (List Bool)) → length vectors ≡ count → AreBlocksOf net.now vectors blocks.now
        → IsRowWhere vectors (Changes net.now a_move) row.new }
{
    for k in 0..blocks.len() {
        row[k] = difference_word(net, a_move, blocks[k].as_slice()) & used_word(count, k);
    }
}

/// The lanes where a move breaks the bound, in one block: where it changes its table's value and the pattern
/// is cared for, or where it leaves the value and the net itself exceeds the bound.
pub(crate) fn broken_word(differs: u64, care: u64, exceeds: u64) -> u64
    ensures { (b : ℕ) → b < 64
        → word_bit result b ≡ (if word_bit differs b then word_bit care b else word_bit exceeds b) }
{
    (differs & care) | (exceeds & !differs)
}

/// The lanes where the move breaks the bound, in one block whose words are all known.
fn known_broken_word(net: &Net, a_move: Move, words: &[u64], care: u64, exceeds: u64) -> u64
    requires offered { Contains (moves_of net.now) a_move }
    requires room { length words.now ≡ signal_count net.now }
    ensures { (b : ℕ) (x : List Bool) → b < 64 → HasValues net.now words.now b x → IsTrue (word_bit result b)
        ↔ ((Changes net.now a_move x × IsTrue (word_bit care b))
        ⊎ ((¬ Changes net.now a_move x) × IsTrue (word_bit exceeds b))) }
{
    // Then the block breaks no move.
    if care == 0 && exceeds == 0 {
        return 0;
    }
    broken_word(difference_word(net, a_move, words), care, exceeds)
}

/// The first pattern at which the move breaks the bound.
pub(crate) fn first_broken(
    net: &Net,
    a_move: Move,
    blocks: &[WordList],
    care: &[u64],
    exceeds: &[u64],
) -> Option<u64>
    requires offered { Contains (moves_of net.now) a_move }
    requires blocks { (k : ℕ) → k < length blocks.now → length (row_at blocks.now k) ≡ signal_count net.now }
    requires few { length blocks.now ≤ 2 ^ 58 }
    requires care { length care.now ≡ length blocks.now }
    requires exceeds { length exceeds.now ≡ length blocks.now }
    ensures { (metric : Metric) (exact : NetValue) (bound : ℕ) (vectors : List (List Bool))
        → AreBlocksOf net.now vectors blocks.now
        → IsRowWhere vectors (IsCaredFor metric exact bound net.now (table_of a_move)) care.now
        → IsRowWhere vectors (Exceeds metric exact bound net.now) exceeds.now
        → FindsFirstBroken (record {
          exact = exact;
          net = net.now;
          metric = metric;
          bound = bound;
          vectors = vectors;
        }) a_move result }
{
    net.see_sound();
    for k in 0..blocks.len() {
        let broken = known_broken_word(net, a_move, blocks[k].as_slice(), care[k], exceeds[k]);
        if let Some(b) = first_set(&[broken], 64) {
            return Some(64 * k as u64 + b);
        }
    }
    None
}
