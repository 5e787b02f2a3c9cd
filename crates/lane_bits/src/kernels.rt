//! Kernels on rows of bits: eight words at a time, and the rest word by word. They take no memory.
ghost use Rattle.std.specs.Prelude.{◌≡◌, ◌*◌, ◌-◌, ◌^◌, ◌<◌, ◌≤◌, ℕ, length, slice_index, false, ◌&&◌, ◌||◌};
ghost use Rattle.std.specs.Prelude.{MatchOption, if◌then◌else◌, bit_and, bit_or, bit_xor};
ghost use Rattle.lane_bits.specs.Rows.{row_bit, turned, word_count, HasNoneSet, IsFirstSet};
ghost use Rattle.lane_bits.specs.Changed.{AreChanged};

use crate::eights::{and_eight, are_clear, keep_eight, or_eight, xor_eight};

/// The number of words that `count` bits take.
pub fn word_count(count: u64) -> u64
    ensures { result ≡ word_count count }
{
    count.div_ceil(64)
}

/// The word with which an exclusive or turns over each bit, or none.
fn flip_word(flip: bool) -> u64
    ensures { result ≡ (if flip then 2 ^ 64 - 1 else 0) }
{
    if flip { u64::MAX } else { 0 }
}

/// Sets the words of `dst` from word `from` on to the conjunctions of those of `a` and `b`, whose bits are
/// turned over where those of `flips_a` and `flips_b` are 1.
fn and_rest(dst: &mut [u64], a: &[u64], flips_a: u64, b: &[u64], flips_b: u64, from: usize)
    requires from { from ≤ length dst.old }
    requires a_length { length a.now ≡ length dst.old }
    requires b_length { length b.now ≡ length dst.old }
    ensures { AreChanged (λ k w. bit_and (bit_xor (slice_index a.now k) flips_a)
        (bit_xor (slice_index b.now k) flips_b))
        from (length dst.old) dst.old dst.new }
{
    for k in from..dst.len() {
        dst[k] = (a[k] ^ flips_a) & (b[k] ^ flips_b);
    }
}

/// Each bit of `dst` becomes the conjunction of the bits of `a` and `b`, each turned over where its flag says
/// so.
pub fn and_rows(dst: &mut [u64], a: &[u64], flip_a: bool, b: &[u64], flip_b: bool)
    requires a_length { length a.now ≡ length dst.old }
    requires b_length { length b.now ≡ length dst.old }
    ensures { (p : ℕ) → p < 64 * length dst.old
        → row_bit dst.new p ≡ (turned flip_a (row_bit a.now p) && turned flip_b (row_bit b.now p)) }
{
    let (flips_a, flips_b) = (flip_word(flip_a), flip_word(flip_b));
    let eights = dst.len() / 8;
    for q in 0..eights {
        and_eight(dst, a, flips_a, b, flips_b, 8 * q);
    }
    and_rest(dst, a, flips_a, b, flips_b, 8 * eights);
}

/// Keeps in the words of `dst` from word `from` on only the bits that are 1 in those of `a`, whose bits are
/// turned over where those of `flips_a` are 1.
fn keep_rest(dst: &mut [u64], a: &[u64], flips_a: u64, from: usize)
    requires from { from ≤ length dst.old }
    requires a_length { length a.now ≡ length dst.old }
    ensures { AreChanged (λ k w. bit_and w (bit_xor (slice_index a.now k) flips_a)) from (length dst.old)
        dst.old dst.new }
{
    for k in from..dst.len() {
        dst[k] &= a[k] ^ flips_a;
    }
}

/// Each bit of `dst` stays 1 only where the bit of `a`, turned over if `flip_a`, is 1 too.
pub fn keep_rows(dst: &mut [u64], a: &[u64], flip_a: bool)
    requires { length a.now ≡ length dst.old }
    ensures { (p : ℕ) → p < 64 * length dst.old
        → row_bit dst.new p ≡ (row_bit dst.old p && turned flip_a (row_bit a.now p)) }
{
    let flips_a = flip_word(flip_a);
    let eights = dst.len() / 8;
    for q in 0..eights {
        keep_eight(dst, a, flips_a, 8 * q);
    }
    keep_rest(dst, a, flips_a, 8 * eights);
}

/// Sets the words of `dst` from word `from` on to their disjunctions with those of `a`.
fn or_rest(dst: &mut [u64], a: &[u64], from: usize)
    requires from { from ≤ length dst.old }
    requires a_length { length a.now ≡ length dst.old }
    ensures { AreChanged (λ k w. bit_or w (slice_index a.now k)) from (length dst.old) dst.old dst.new }
{
    for k in from..dst.len() {
        dst[k] |= a[k];
    }
}

/// Each bit of `dst` becomes 1 where the bit of `a` is 1.
pub fn or_rows(dst: &mut [u64], a: &[u64])
    requires { length a.now ≡ length dst.old }
    ensures { (p : ℕ) → row_bit dst.new p ≡ (row_bit dst.old p || row_bit a.now p) }
{
    let eights = dst.len() / 8;
    for q in 0..eights {
        or_eight(dst, a, 8 * q);
    }
    or_rest(dst, a, 8 * eights);
}

/// Turns over the bits of the words of `dst` from word `from` on where those of `a` are 1.
fn xor_rest(dst: &mut [u64], a: &[u64], from: usize)
    requires from { from ≤ length dst.old }
    requires a_length { length a.now ≡ length dst.old }
    ensures { AreChanged (λ k w. bit_xor w (slice_index a.now k)) from (length dst.old) dst.old dst.new }
{
    for k in from..dst.len() {
        dst[k] ^= a[k];
    }
}

/// Each bit of `dst` is turned over where the bit of `a` is 1.
pub fn xor_rows(dst: &mut [u64], a: &[u64])
    requires { length a.now ≡ length dst.old }
    ensures { (p : ℕ) → row_bit dst.new p ≡ turned (row_bit a.now p) (row_bit dst.old p) }
{
    let eights = dst.len() / 8;
    for q in 0..eights {
        xor_eight(dst, a, 8 * q);
    }
    xor_rest(dst, a, 8 * eights);
}

/// Makes the bits past the first `count` 0.
pub fn clear_past(row: &mut [u64], count: u64)
    requires { length row.old ≡ word_count count }
    ensures same { (p : ℕ) → p < count → row_bit row.new p ≡ row_bit row.old p }
    ensures clear { (p : ℕ) → count ≤ p → row_bit row.new p ≡ false }
{
    let used = count % 64;
    if used != 0 {
        let last = row.len() - 1;
        row[last] &= (1 << used) - 1;
    }
}

/// The number of words, of the first `words`, that can be passed over, eight at a time, since all of them are
/// 0.
fn clear_words(row: &[u64], words: usize) -> usize
    requires { words ≤ length row.now }
    ensures within { result ≤ words }
    ensures clear { (k : ℕ) → k < result → slice_index row.now k ≡ 0 }
{
    let eights = words / 8;
    for q in 0..eights {
        if !are_clear(row, 8 * q) {
            return 8 * q;
        }
    }
    8 * eights
}

/// The least position below `count` whose bit is 1.
pub fn first_set(row: &[u64], count: u64) -> Option<u64>
    requires { count ≤ 64 * length row.now }
    ensures { MatchOption result (HasNoneSet row.now count) (IsFirstSet row.now count) }
{
    let words = word_count(count);
    for k in clear_words(row, words as usize) as u64..words {
        let word = row[k as usize];
        if word != 0 {
            let p = 64 * k + u64::from(word.trailing_zeros());
            return if p < count { Some(p) } else { None };
        }
    }
    None
}
