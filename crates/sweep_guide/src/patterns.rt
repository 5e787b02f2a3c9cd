//! Patterns that look like chance, 64 at a time: a word for each input.

/// The next number of a sequence, never 0 where the one before is not. Source: the xorshift generators of
/// Marsaglia.
fn next_number(number: u64) -> u64 {
    let one = number ^ (number << 13);
    let two = one ^ (one >> 7);
    two ^ (two << 17)
}

/// A word that depends on all bits of the number, and looks like chance. Source: the finalizer of SplitMix.
pub fn scrambled(number: u64) -> u64 {
    let one = number.wrapping_mul(0x9e37_79b9_7f4a_7c15);
    let two = (one ^ (one >> 30)).wrapping_mul(0xbf58_476d_1ce4_e5b9);
    two ^ (two >> 27)
}

/// Sets the first `inputs` words, those of the inputs, and returns the last number of the sequence.
pub fn set_patterns(words: &mut [u64], inputs: usize, number: u64) -> u64 {
    let mut last = number;
    for i in 0..inputs.min(words.len()) {
        last = next_number(last);
        words[i] = scrambled(last);
    }
    last
}
