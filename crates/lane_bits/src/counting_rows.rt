//! The rows of the counting order, made by whole words.
ghost use Rattle.std.specs.Prelude.{◌≡◌, ◌==◌, ◌+◌, ◌*◌, ◌<◌, ◌≤◌, ℕ, length, IfOk};
ghost use Rattle.std.specs.Int.{bit_at};
ghost use Rattle.lane_bits.specs.Rows.{row_bit};
ghost use Rattle.lane_bits.specs.CountingOrder.{IsCountingRow, AreCountingRows, ArePlacedRows};

use crate::bit_row::BitRow;
use crate::input_order::InputOrder;
use crate::kernels::{clear_past, word_count};
use std::alloc::{AllocError, Global};

/// The word of 64 equal bits.
fn constant_word(bit: bool) -> u64
    ensures { (b : ℕ) → b < 64 → (bit_at result b == 1) ≡ bit }
{
    if bit { u64::MAX } else { 0 }
}

/// Word k of an input's row: its bit b is bit `input` of the number 64 k + b. Each of the first six inputs
/// has the same word everywhere; the words of the other inputs have only zeros or only ones.
fn counting_word(input: u32, k: u64) -> u64
    requires { input < 64 }
    ensures { (b : ℕ) → b < 64 → (bit_at result b == 1) ≡ (bit_at (64 * k + b) input == 1) }
{
    match input {
        0 => 0xaaaa_aaaa_aaaa_aaaa,
        1 => 0xcccc_cccc_cccc_cccc,
        2 => 0xf0f0_f0f0_f0f0_f0f0,
        3 => 0xff00_ff00_ff00_ff00,
        4 => 0xffff_0000_ffff_0000,
        5 => 0xffff_ffff_0000_0000,
        _ => constant_word(k >> (input - 6) & 1 == 1),
    }
}

/// Sets each word of `row` to that of an input's row.
fn set_counting(row: &mut [u64], input: u32)
    requires { input < 64 }
    ensures { (p : ℕ) → p < 64 * length row.old → row_bit row.new p ≡ (bit_at p input == 1) }
{
    for k in 0..row.len() {
        row[k] = counting_word(input, k as u64);
    }
}

/// The row of an input at the first `count` vectors.
fn counting_row(alloc: Global, input: u32, count: u64) -> Result<BitRow, AllocError>
    requires { input < 64 }
    ensures { IfOk result (IsCountingRow input count) }
{
    let mut words = vec![in alloc; 0; word_count(count) as usize]?;
    let row = words.as_mut_slice();
    set_counting(row, input);
    clear_past(row, count);
    Ok(BitRow::of(words))
}

/// The rows of the first `inputs` inputs at the first `count` vectors.
pub(crate) fn counting_rows(
    alloc: Global,
    inputs: u32,
    count: u64,
) -> Result<Vec<BitRow>, AllocError>
    requires { inputs ≤ 64 }
    ensures { IfOk result (λ rows. AreCountingRows inputs count rows.items) }
{
    let mut rows = Vec::new(alloc);
    for i in 0..inputs {
        rows.push(counting_row(alloc, i, count)?)?;
    }
    Ok(rows)
}

/// The rows of the inputs at the first `count` vectors of the counting order in which the inputs have the
/// places of `order`.
pub(crate) fn placed_rows(
    alloc: Global,
    order: &InputOrder,
    count: u64,
) -> Result<Vec<BitRow>, AllocError>
    requires { length order.now ≤ 64 }
    ensures { IfOk result (λ rows. ArePlacedRows (length order.now) count order.now rows.items) }
{
    let mut rows = Vec::new(alloc);
    for i in 0..order.inputs() {
        rows.push(counting_row(alloc, order.place(i), count)?)?;
    }
    Ok(rows)
}
